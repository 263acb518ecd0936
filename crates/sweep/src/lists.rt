// The caller's four lists.
ghost use Rattle.std.specs.Prelude.{◌≡◌, ◌+◌, length};
ghost use Rattle.sweep.specs.Calls.{lent_short};
ghost use Rattle.sweep.specs.Private.{RoomIn, PutIn};

use crate::Figures;
use crate::table::PACKET_TABLE_LEN;

// Element i of each list is a figure of record i + 1.
#[derive(Drop)]
pub(crate) struct Lists<'a> {
    pub flags: &'a mut [u8],
    pub positions: &'a mut [u32],
    pub extents: &'a mut [u32],
    pub lates: &'a mut [u64],
}

impl Lists<'_> {
    // Returns whether a table of this length or one of the lists is too short for `arrivals` arrivals.
    pub(crate) fn too_short(&self, arrivals: u32, table: usize) -> bool
        ensures { result ≡ lent_short arrivals table (length self.now.flags.now) (length self.now.positions.now)
            (length self.now.extents.now) (length self.now.lates.now) }
    {
        let count = arrivals as usize;
        if table < PACKET_TABLE_LEN {
            return true;
        }
        if self.flags.len() < count {
            return true;
        }
        if self.positions.len() < count {
            return true;
        }
        if self.extents.len() < count {
            return true;
        }
        self.lates.len() < count
    }

    // Stores the figures of record i + 1.
    pub(crate) fn put(&mut self, i: u32, f: Figures)
        requires { RoomIn (i + 1) self.old }
        ensures { PutIn i f self.old self.new }
    {
        let place = i as usize;
        self.flags[place] = f.flag;
        self.positions[place] = f.position;
        self.extents[place] = f.extent;
        self.lates[place] = f.late;
    }
}
