// Lists that are filled with the numbers of a text, the first values of a list, and whether a list still holds a value. Every public call
// is total.
ghost use Rattle.std.specs.Prelude.{◌≡◌, length, take};
ghost use Rattle.octets.specs.Memory.{over};
ghost use Rattle.cases.specs.Text.{numbers_in};
ghost use Rattle.cases.specs.Lists.{numbers_within};

use crate::element::Element;
use crate::text::{BLANK, count, number};

// Fills a list with the numbers of a text, until either ends; returns how many numbers the text has.
pub fn fill<T: Element>(text: &[u8], out: &mut [T]) -> usize
    ensures count { result ≡ length (numbers_in text.now) }
    ensures filled { out.new ≡ over (numbers_within T.cut_to (length out.old) text.now) out.old }
{
    let n = count(text, BLANK);
    let filled = n.min(out.len());
    for (i, element) in out[..filled].iter_mut().enumerate() {
        *element = T::cut(number(text, i));
    }
    n
}

// The first n values of a list, or all if it has fewer.
pub fn first<T>(list: &[T], n: usize) -> &[T]
    ensures { result.now ≡ take n list.now }
{
    &list[..n.min(list.len())]
}

// Fills a list with the numbers of a text, until either ends; returns the elements that were filled.
pub fn filled<'a, T: Element>(text: &[u8], out: &'a mut [T]) -> &'a [T]
    ensures { result.now ≡ numbers_within T.cut_to (length out.old) text.now }
{
    let n = fill(text, out);
    first(out, n)
}

// Whether every element of a list from index `from` on is `value`.
pub fn kept<T: PartialEq + Copy>(list: &[T], from: usize, value: T) -> bool {
    list.iter().skip(from).all(|element| *element == value)
}
