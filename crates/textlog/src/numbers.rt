// How the full number of an arrival is found.
ghost use Rattle.std.specs.Prelude.{◌≡◌, ℕ};

// What the number on a line says of the full number.
pub trait Numbers {
    // The full number, by the greatest full number of the lines before (0 for none) and the number on the line.
    ghost full: { ℕ → ℕ → ℕ };

    // Returns the full number.
    fn full_number(greatest: u16, number: u32) -> u32
        ensures { result ≡ full greatest number };
}

// Lines that have the full number.
pub struct Full;

impl Numbers for Full {
    ghost full = { λ greatest number. number };

    fn full_number(_greatest: u16, number: u32) -> u32 {
        number
    }
}
