// One arrival of the lists.
ghost use Rattle.std.specs.Prelude.{◌≡◌, ◌+◌, ◌*◌, ◌<◌, length, get_or};
ghost use Rattle.fragments.specs.Pieces.{is_last, is_whole, piece_start, piece_end};
ghost use Rattle.fragments.specs.Private.{no_piece};
ghost use Rattle.fragments.specs.Places.{key_of, piece_key};
ghost use Rattle.fragments.specs.Arrivals.{pieces};

use crate::Piece;
use crate::arrivals::Arrivals;

impl Piece {
    // Returns whether no more fragments of the packet are to come.
    pub(crate) fn is_last(self) -> bool
        ensures { result ≡ is_last self }
    {
        self.more == 0
    }

    // Returns whether the arrival is a whole packet.
    pub(crate) fn is_whole(self) -> bool
        ensures { result ≡ is_whole self }
    {
        self.is_last() && self.offset == 0
    }

    // Returns the offset of the first octet of the arrival in its packet.
    pub(crate) fn start(self) -> u32
        ensures { result ≡ piece_start self }
    {
        8 * u32::from(self.offset)
    }

    // Returns the offset after its last octet.
    pub(crate) fn end(self) -> u32
        ensures { result ≡ piece_end self }
    {
        self.start() + u32::from(self.length)
    }

    // Returns its key: its offset, then its length.
    pub(crate) fn key(self) -> u32
        ensures { result ≡ key_of self }
    {
        u32::from(self.offset) * 65536 + u32::from(self.length)
    }
}

impl Arrivals<'_> {
    // Returns the number of arrivals.
    pub(crate) fn len(&self) -> usize
        ensures { result ≡ length self.now.numbers.now }
    {
        self.numbers.len()
    }

    // Returns the arrival at index i.
    pub(crate) fn get(&self, i: usize) -> Piece
        requires { i < length self.now.numbers.now }
        ensures { result ≡ get_or (pieces self.now) i no_piece }
    {
        Piece {
            number: self.numbers[i],
            time: self.times[i],
            length: self.lengths[i],
            more: self.mores[i],
            offset: self.offsets[i],
        }
    }

    // Returns the key of the arrival at a place; 0 after the last arrival.
    pub(crate) fn key(&self, place: u16) -> u32
        ensures { result ≡ piece_key self.now.lengths.now self.now.offsets.now place }
    {
        let i = usize::from(place);
        if i < self.offsets.len() {
            return u32::from(self.offsets[i]) * 65536 + u32::from(self.lengths[i]);
        }
        0
    }

    // Returns the key of the arrival at a place, then the place.
    pub(crate) fn full_key(&self, place: u16) -> u64
        ensures { result ≡ piece_key self.now.lengths.now self.now.offsets.now place * 65536 + place }
    {
        u64::from(self.key(place)) * 65536 + u64::from(place)
    }
}
