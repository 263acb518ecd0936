// Sums of the numbers of a list, modulo 2^64.

// The sum of the numbers, and the sum of all partial sums, which depends on their order.
#[derive(Clone, Copy, Default)]
pub struct Sums {
    pub sum: u64,
    pub sums: u64,
}

impl Sums {
    // The sums with the next number.
    fn with(self, n: u64) -> Sums {
        let sum = self.sum.wrapping_add(n);
        Sums {
            sum,
            sums: self.sums.wrapping_add(sum),
        }
    }
}

// The sums of a list.
pub fn sums_of<T: Copy + Into<u64>>(list: &[T]) -> Sums {
    list.iter()
        .fold(Sums::default(), |sums, n| sums.with((*n).into()))
}
