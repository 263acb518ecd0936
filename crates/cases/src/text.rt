// The parts of a text, and its numbers. A text is octets and no `str`, since a case may hold any. Every public call is total.
ghost use Rattle.std.specs.Prelude.{◌≡◌, ◌==◌, [], length, position, slice_index, slice_index_or};
ghost use Rattle.std.specs.Iterator.{YieldsFirstRef, item_count};
ghost use Rattle.cases.specs.Text.{cut_at, numbers_in};

use decimal::reading::number_at;

// What stands between the numbers of a text.
pub const BLANK: u8 = b' ';

// The number of octets of standard input that a program of cases reads at most.
pub const INPUT_OCTETS: usize = 8192;

// The offset of the first separator, if there is one.
fn separator_in(text: &[u8], separator: u8) -> Option<usize>
    ensures { result ≡ position (λ octet. octet == separator) text.now }
{
    text.iter().position(|octet| *octet == separator)
}

// The parts of a text, from the first on: each ends before a separator, the last one at the text's end. An empty text has none.
#[derive(Clone, Copy)]
pub struct Parts<'a> {
    pub rest: &'a [u8],
    pub separator: u8,
}

impl<'a> Iterator for Parts<'a> {
    type Item = &'a [u8];

    ghost next_gives = { YieldsFirstRef (λ s. cut_at s.separator s.rest.now) };

    ghost remaining = { item_count (λ s. cut_at s.separator s.rest.now) };

    fn next(&mut self) -> Option<&'a [u8]> {
        let text = self.rest;
        if text.is_empty() {
            return None;
        }
        match separator_in(text, self.separator) {
            Some(end) => {
                self.rest = &text[end + 1..];
                Some(&text[..end])
            }
            None => {
                self.rest = &[];
                Some(text)
            }
        }
    }
}

// The parts of a text.
pub fn parts_of(text: &[u8], separator: u8) -> Parts<'_>
    ensures text { result.rest.now ≡ text.now }
    ensures separator { result.separator ≡ separator }
{
    Parts {
        rest: text,
        separator,
    }
}

// The lines of a text.
pub fn lines(text: &[u8]) -> Parts<'_>
    ensures text { result.rest.now ≡ text.now }
    ensures separator { result.separator ≡ 10 }
{
    parts_of(text, b'\n')
}

// The number of parts of a text.
#[tactic(auto, using(crate::proofs::Parts::count_le))]
pub fn count(text: &[u8], separator: u8) -> usize
    ensures { result ≡ length (cut_at separator text.now) }
{
    parts_of(text, separator).count()
}

// Part n of a text, from 0; empty past the last one.
pub fn part(text: &[u8], separator: u8, n: usize) -> &[u8]
    ensures { result.now ≡ slice_index_or (cut_at separator text.now) n [] }
{
    parts_of(text, separator).nth(n).unwrap_or(&[])
}

// Number n of a text of numbers, from 0; 0 past the last one.
pub fn number(text: &[u8], n: usize) -> u64
    ensures { result ≡ slice_index (numbers_in text.now) n }
{
    number_at(part(text, BLANK, n), 0).value
}
