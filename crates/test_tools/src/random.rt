// Random numbers.
ghost use Rattle.std.specs.Prelude.{◌≤◌, ◌-◌};

/// Marsaglia's xorshift.
#[derive(Clone, Copy, Debug)]
pub struct Rng(pub u64);

impl Rng {
    /// A number below n; of none, 0.
    pub fn below(&mut self, n: usize) -> usize
        ensures { result ≤ n - 1 }
    {
        self.0 ^= self.0 << 13;
        self.0 ^= self.0 >> 7;
        self.0 ^= self.0 << 17;
        if n == 0 {
            return 0;
        }
        (self.0 >> 11) as usize % n
    }

    pub fn one_in(&mut self, n: usize) -> bool {
        self.below(n) == 0
    }
}
