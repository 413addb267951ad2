// A seeded generator, so that every run has the same lines. The program panel_bench has a generator of its own: the two draw other
// ranges, and a crate for ten lines would be no plainer.
use line::solver::{LIMIT, LONGEST};

#[derive(Drop)]
pub(crate) struct Random {
    state: u64,
}

impl Random {
    pub(crate) fn new(seed: u64) -> Random {
        Random { state: seed }
    }

    // The next 31 bits of a linear congruence.
    fn bits(&mut self) -> u32 {
        self.state = self
            .state
            .wrapping_mul(6364136223846793005)
            .wrapping_add(1442695040888963407);
        (self.state >> 33) as u32
    }

    // A number from -5,000,000 to 5,000,000.
    pub(crate) fn number(&mut self) -> i64 {
        i64::from(self.bits() % 10_000_001) - LIMIT
    }

    // 5,000,000 or its negative.
    pub(crate) fn extreme(&mut self) -> i64 {
        if self.bits() % 2 == 0 { LIMIT } else { -LIMIT }
    }

    // 64 numbers, drawn one after the other.
    pub(crate) fn line<F: Fn(&mut Random) -> i64>(&mut self, draw: &F) -> [i64; LONGEST]
        requires { F.IsAlwaysCallable draw.now }
    {
        let mut line = [0; LONGEST];
        for number in line.iter_mut() {
            *number = draw(self);
        }
        line
    }
}
