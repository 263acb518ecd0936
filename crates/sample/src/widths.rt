// The widths of a file's fields, in octets.

// The count of a section.
pub const COUNT_WIDTH: usize = 2;

// One octet of the label.
pub const OCTET_WIDTH: usize = 1;

// A payload size.
pub const SIZE_WIDTH: usize = 2;

// A sequence number.
pub const NUMBER_WIDTH: usize = 4;

// An arrival time.
pub const TIME_WIDTH: usize = 8;

// An arrival: its number, then its time.
pub const ARRIVAL_WIDTH: usize = NUMBER_WIDTH + TIME_WIDTH;
