// What a sample kind is: a list of signed 32-bit numbers, its parts, counted from 1.
ghost use Rattle.std.specs.Prelude.{◌≡◌, ℕ, ◌≤◌, List, length, ℤ};
ghost use Rattle.grid.specs.Sample.{part_of, with_part, Fits32};

pub trait Sample: Copy {
    // How many parts each sample of the kind has.
    const PARTS: usize;

    ghost PARTS: { ℕ };

    // The parts of a sample.
    ghost parts: { Self → List ℤ };

    // Part k, and 0 if there is none.
    fn part(&self, k: usize) -> i32
        ensures value { result ≡ part_of (parts self.now) k }
        ensures range { Fits32 result };

    // The same sample with part k replaced, and the same sample if there is none.
    fn replace_part(&self, k: usize, v: i32) -> Self
        ensures { parts result ≡ with_part (parts self.now) k v };

    ghost counted: { (1 ≤ PARTS) × (PARTS ≤ 4) × ((s : Self) → length (parts s) ≡ PARTS) };

    // A sample is nothing beside its parts.
    ghost determined: { (s t : Self) → parts s ≡ parts t → s ≡ t };
}
