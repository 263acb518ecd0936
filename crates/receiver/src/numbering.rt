// Codes for `Beyond`, the one case that only a receiver has, by the direction of its late time; rfc4737::numbering has the others.

// Reordered beyond the window, and late after the arrival of the window's oldest jump.
pub const BEYOND_AFTER: u32 = 4;

// Reordered beyond the window, and late before that arrival.
pub const BEYOND_BEFORE: u32 = 5;
