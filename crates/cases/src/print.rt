// What the programs of cases write on standard output: words, numbers, answers and lists.
use std::fmt::Display;
use std::io;

// Writes a word.
pub fn write_word(rt: &impl Print, word: &[u8]) -> io::Result<()> {
    rt.write_all(word)
}

// Writes a word and a number.
pub fn write_number<T: Display + Drop>(rt: &impl Print, word: &[u8], n: T) -> io::Result<()> {
    write_word(rt, word)?;
    rt.print(n)
}

// Writes `one` if the test holds, else `other`.
pub fn write_either(rt: &impl Print, test: bool, one: &[u8], other: &[u8]) -> io::Result<()> {
    write_word(rt, if test { one } else { other })
}

// Writes a name and the result of a call: `word` and `n`, or the refusal; with a refusal `n` must be 0, else it is written too.
pub fn write_answer(
    rt: &impl Print,
    name: &[u8],
    refusal: u32,
    word: &[u8],
    n: u64,
) -> io::Result<()> {
    write_word(rt, name)?;
    if refusal == 0 {
        return write_number(rt, word, n);
    }
    write_number(rt, b": refused ", refusal)?;
    if n != 0 {
        write_number(rt, b" BUT ", n)?;
    }
    Ok(())
}

// Writes a word and all numbers of a list.
pub fn write_list<T: Display + Copy>(rt: &impl Print, word: &[u8], list: &[T]) -> io::Result<()> {
    write_word(rt, word)?;
    for n in list {
        write_number(rt, b" ", *n)?;
    }
    Ok(())
}
