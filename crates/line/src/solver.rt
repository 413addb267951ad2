// What a line solver is, which lines every solver refuses, and the numbers of the refusals.
ghost use Rattle.std.specs.Prelude.{◌≡◌, ℕ, length, position, not, nat_le, unsigned_abs};
ghost use Rattle.line.specs.Solver.{Solver, Sound, limit};
ghost use Rattle.line.specs.Solve.{fault_number, solve_answer, solve_after, first_beyond};

use thiserror::Error;

// How many numbers a line has at least and at most, and the greatest of them either way.
pub const SHORTEST: usize = 2;

pub const LONGEST: usize = 64;

pub const LIMIT: i64 = 5_000_000;

// Why a line is refused.
#[derive(Clone, Copy, PartialEq, Eq, Debug, Error)]
pub enum SolveFault {
    // The line has fewer than 2 or more than 64 numbers.
    #[error("a line has {} to {} numbers", SHORTEST, LONGEST)]
    Length,
    // The output line has another length.
    #[error("the answer needs as many places as the line")]
    Output,
    // The number at this place, counted from 1, is the first that lies beyond 5,000,000 either way.
    #[error("that number lies beyond {} either way", LIMIT)]
    Beyond(usize),
}

impl SolveFault {
    // The number of the refusal.
    pub fn number(&self) -> u8
        ensures { result ≡ fault_number self.now }
    {
        // A match, since variants that hold something have no discriminants to cast.
        match self {
            SolveFault::Length => 1,
            SolveFault::Output => 2,
            SolveFault::Beyond(_) => 3,
        }
    }
}

// A line solver: a fixed rule from lines to lines, with residuals between -GRADE and GRADE.
pub trait LineSolver {
    // The grade, from 1 to 12: the law `sound` says so.
    const GRADE: u8;

    // Names it in clauses and laws.
    ghost GRADE: { ℕ };

    // The rule and the grade.
    ghost meaning: { Solver };

    // Writes the rule's line into the output line, or refuses the line and writes nothing.
    fn solve(&self, line: &[i64], out: &mut [i64]) -> Result<(), SolveFault>
        ensures answer { result ≡ solve_answer line.now (length out.old) }
        ensures after { out.new ≡ solve_after meaning line.now out.old };

    ghost sound: { Sound meaning };

    ghost graded: { meaning.grade ≡ GRADE };
}

// The checks that every solver makes, in their order; `room` is the length of the output line.
pub fn accept(line: &[i64], room: usize) -> Result<(), SolveFault>
    ensures { result ≡ solve_answer line.now room }
{
    if !(SHORTEST..=LONGEST).contains(&line.len()) {
        return Err(SolveFault::Length);
    }
    if room != line.len() {
        return Err(SolveFault::Output);
    }
    within_limit(line)
}

// Refuses the first place whose number lies beyond the limit.
fn within_limit(line: &[i64]) -> Result<(), SolveFault>
    ensures { result ≡ first_beyond 1 line.now }
{
    match index_beyond(line) {
        Some(i) => Err(SolveFault::Beyond(i + 1)),
        None => Ok(()),
    }
}

// The first index whose number lies beyond the limit.
fn index_beyond(line: &[i64]) -> Option<usize>
    ensures { result ≡ position (λ v. not (nat_le (unsigned_abs v) limit)) line.now }
{
    line.iter().position(|v| !(-LIMIT..=LIMIT).contains(v))
}
