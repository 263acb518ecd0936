// The octets of a log in a case's line. There `$` stands for a line feed, `&` for a carriage return, `#` for octet 0, `@` for octet 255.
use cases::lists::first;

// The octet that an octet of a line stands for.
fn octet_for(octet: u8) -> u8 {
    match octet {
        b'$' => b'\n',
        b'&' => b'\r',
        b'#' => 0,
        b'@' => 255,
        _ => octet,
    }
}

// Writes the octets that those of a field stand for into `room`, as far as there is room; returns them.
pub(crate) fn octets_for<'a>(field: &[u8], room: &'a mut [u8]) -> &'a [u8] {
    for (place, octet) in room.iter_mut().zip(field) {
        *place = octet_for(*octet);
    }
    first(room, field.len())
}
