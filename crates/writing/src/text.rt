// A text that is written part by part. It has room for N octets.
ghost use Rattle.std.specs.Prelude.{◌≡◌, ◌+◌, ◌≤◌, ◌<◌, List, [], ◌∷◌, ◌++◌, length, take};
ghost use Rattle.decimal.specs.Decimal.{decimal_of};
ghost use Rattle.listing.specs.Lines.{late_time};
ghost use Rattle.writing.specs.Numbers.{between};

use rfc4737::LateTime;
use std::marker::Model;

// The octets written so far, and the room after them.
#[derive(Drop)]
pub struct Text<const N: usize> {
    octets: [u8; N],
    len: usize,
}

impl<const N: usize> Model for Text<N> {
    ghost use Rattle.std.specs.Prelude.{ℕ, List, ◌≤◌, take};

    ghost Value = { List ℕ };

    ghost view = { λ text. take text.len text.octets };

    ghost invariant = { λ text. text.len ≤ N };
}

impl<const N: usize> Text<N> {
    // Returns a text of no octets.
    pub fn new() -> Self
        ensures { result ≡ [] }
    {
        Text {
            octets: [0; N],
            len: 0,
        }
    }

    // Drops all that was written.
    pub fn clear(&mut self)
        ensures { self.new ≡ [] }
    {
        self.len = 0;
    }

    // Returns the octets written so far.
    pub fn octets(&self) -> &[u8]
        ensures { result.now ≡ self.now }
    {
        &self.octets[..self.len]
    }

    // Writes an octet, if there is room for it.
    pub fn octet(&mut self, octet: u8)
        ensures written { length self.old + 1 ≤ N → self.new ≡ self.old ++ octet ∷ [] }
        ensures full { N < length self.old + 1 → self.new ≡ self.old }
    {
        if self.len < N {
            self.octets[self.len] = octet;
            self.len += 1;
        }
    }

    // Writes a word, if there is room for it.
    pub fn word(&mut self, word: &[u8])
        ensures written { length self.old + length word.now ≤ N → self.new ≡ self.old ++ word.now }
        ensures full { N < length self.old + length word.now → self.new ≡ self.old }
    {
        if word.len() <= N - self.len {
            self.put_word(word);
        }
    }

    // Writes a number in decimal, if there is room for 20 digits.
    pub fn number(&mut self, v: u64)
        ensures written { length self.old + 20 ≤ N → self.new ≡ self.old ++ decimal_of v }
        ensures full { N < length self.old + 20 → self.new ≡ self.old }
        ensures room { length self.new ≤ length self.old + 20 }
    {
        if 20 <= N - self.len {
            self.put_number(v);
        }
    }

    // Writes a number between two words, if there is room for both and 20 digits. Inlined, LLVM stores the words of a call several octets at
    // a time; else it copies octet by octet, and a line of `follow` costs a half more.
    #[inline(always)]
    pub fn between(&mut self, before: &[u8], v: u64, after: &[u8])
        ensures written { length self.old + (length before.now + (20 + length after.now)) ≤ N → self.new ≡ self.old ++ between before.now v after.now }
        ensures full { N < length self.old + (length before.now + (20 + length after.now)) → self.new ≡ self.old }
        ensures room { length self.new ≤ length self.old + (length before.now + (20 + length after.now)) }
    {
        let room = N - self.len;
        if 20 <= room && before.len() <= room - 20 && after.len() <= room - 20 - before.len() {
            self.put_word(before);
            self.put_number(v);
            self.put_word(after);
        }
    }

    // Writes a late time, if there is room for 21 octets: its amount, after a minus if it is before and not 0.
    #[tactic(auto, unfolding(listing::specs::Lines::late_time))]
    pub fn late_time(&mut self, late: LateTime)
        ensures written { length self.old + 21 ≤ N → self.new ≡ self.old ++ late_time late }
        ensures full { N < length self.old + 21 → self.new ≡ self.old }
        ensures room { length self.new ≤ length self.old + 21 }
    {
        if N - self.len < 21 {
            return;
        }
        match late {
            LateTime::Before(t) if 0 < t => {
                self.put_word(b"-");
                self.put_number(t);
            }
            LateTime::Before(t) | LateTime::After(t) => self.put_number(t),
        }
    }

    // Writes a word that has room.
    fn put_word(&mut self, word: &[u8])
        requires { length self.old + length word.now ≤ N }
        ensures { self.new ≡ self.old ++ word.now }
    {
        octets::put_octets(&mut self.octets, self.len, word);
        self.len += word.len();
    }

    // Writes a number that has room.
    fn put_number(&mut self, v: u64)
        requires { length self.old + 20 ≤ N }
        ensures written { self.new ≡ self.old ++ decimal_of v }
        ensures room { length self.new ≤ length self.old + 20 }
    {
        let digits = decimal::put_decimal(&mut self.octets, self.len, v);
        self.len += digits;
    }
}
