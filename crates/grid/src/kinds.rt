// The two kinds of sample: a height and a point. Two types and not one over the number of parts: an array would lose the names of the parts.
ghost use Rattle.std.specs.Prelude.{[], ◌∷◌};
ghost use Rattle.std.proofs.Common.{rules};

use crate::sample::Sample;

// A height: one part.
#[derive(Clone, Copy, PartialEq, Eq, Debug, Default)]
pub struct Height(pub i32);

// A point: three parts, across, along and up.
#[derive(Clone, Copy, PartialEq, Eq, Debug, Default)]
pub struct Point {
    pub across: i32,
    pub along: i32,
    pub up: i32,
}

impl Sample for Height {
    const PARTS: usize = 1;

    ghost PARTS = { 1 };

    ghost parts = { λ h. h.0 ∷ [] };

    ghost counted = { Prim.search rules };

    ghost determined = { Prim.search rules };

    fn part(&self, k: usize) -> i32 {
        if k == 1 { self.0 } else { 0 }
    }

    fn replace_part(&self, k: usize, v: i32) -> Height {
        if k == 1 { Height(v) } else { *self }
    }
}

impl Sample for Point {
    const PARTS: usize = 3;

    ghost PARTS = { 3 };

    ghost parts = { λ p. p.across ∷ p.along ∷ p.up ∷ [] };

    ghost counted = { Prim.search rules };

    ghost determined = { Prim.search rules };

    fn part(&self, k: usize) -> i32 {
        match k {
            1 => self.across,
            2 => self.along,
            3 => self.up,
            _ => 0,
        }
    }

    fn replace_part(&self, k: usize, v: i32) -> Point {
        match k {
            1 => Point { across: v, ..*self },
            2 => Point { along: v, ..*self },
            3 => Point { up: v, ..*self },
            _ => *self,
        }
    }
}
