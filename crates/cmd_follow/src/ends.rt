// How the program ended, as a word.
use std::fs::OpenOptions;
use std::io::Write;
use std::rt::Files;

// Why the program ended before all was read and written.
#[derive(Clone, Copy)]
pub(crate) enum End {
    // The input can't be read.
    Unread,
    // A line can't be written.
    Unwritten,
    // What reads the output has gone away.
    Gone,
    // K is refused.
    Refused,
}

// The name of descriptor 3, on which the program says how it ended.
const STATUS: &str = "/dev/fd/3";

// Writes a word on descriptor 3. Nothing is written where it is not open.
fn say(rt: &impl Files, word: &[u8]) {
    if let Ok(mut status) = OpenOptions::new().append(true).open(rt, STATUS) {
        let _ = status.write_all(word);
    }
}

// Says how the program ended.
pub(crate) fn say_end(rt: &impl Files, ended: Result<(), End>) {
    match ended {
        Ok(()) => say(rt, b"done"),
        Err(End::Unread) => say(rt, b"unread"),
        Err(End::Unwritten) => say(rt, b"unwritten"),
        Err(End::Gone) => say(rt, b"gone"),
        Err(End::Refused) => say(rt, b"refused"),
    }
}
