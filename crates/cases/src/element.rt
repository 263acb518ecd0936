// The unsigned types of the numbers that a list holds, and how a number of 64 bits is taken into each. The four blocks below are alike, but
// no macro may write an `impl` here, and what each takes at most is a literal of its type.
ghost use Rattle.std.specs.Prelude.{◌≡◌, ℕ, ◌%◌, min};

pub trait Element: Copy {
    // The number, or the greatest of the type if the number is greater.
    ghost cut_to: { ℕ → Self };

    // The number modulo one more than the greatest of the type.
    ghost wrapped_to: { ℕ → Self };

    fn cut(n: u64) -> Self
        ensures { result ≡ cut_to n };

    fn wrapped(n: u64) -> Self
        ensures { result ≡ wrapped_to n };
}

impl Element for u8 {
    ghost cut_to = { λ n. min n 255 };

    ghost wrapped_to = { λ n. n % 256 };

    fn cut(n: u64) -> u8 {
        n.min(255) as u8
    }

    fn wrapped(n: u64) -> u8 {
        (n % 256) as u8
    }
}

impl Element for u16 {
    ghost cut_to = { λ n. min n 65535 };

    ghost wrapped_to = { λ n. n % 65536 };

    fn cut(n: u64) -> u16 {
        n.min(65_535) as u16
    }

    fn wrapped(n: u64) -> u16 {
        (n % 65_536) as u16
    }
}

impl Element for u32 {
    ghost cut_to = { λ n. min n 4294967295 };

    ghost wrapped_to = { λ n. n % 4294967296 };

    fn cut(n: u64) -> u32 {
        n.min(4_294_967_295) as u32
    }

    fn wrapped(n: u64) -> u32 {
        (n % 4_294_967_296) as u32
    }
}

impl Element for u64 {
    ghost cut_to = { λ n. min n 18446744073709551615 };

    ghost wrapped_to = { λ n. n % 18446744073709551616 };

    fn cut(n: u64) -> u64 {
        n
    }

    fn wrapped(n: u64) -> u64 {
        n
    }
}
