// Solved lines, counted, with the residuals worked out again from the rule.
ghost use Rattle.std.specs.Prelude.{◌≡◌, ◌<◌, ◌≤◌, length};

use line::elimination::Elimination;
use line::solver::{LONGEST, LineSolver};
use std::fmt;

// How many lines and places came, the worst residual, and how many places missed the grade.
#[derive(Default, Drop)]
pub(crate) struct Tally {
    lines: u32,
    places: u32,
    pub(crate) worst: u64,
    missed: u32,
}

impl fmt::Display for Tally {
    fn fmt<W: fmt::Write>(&self, f: &mut fmt::Formatter<W>) -> fmt::Result {
        write!(f, "{} lines, {} places, ", self.lines, self.places)?;
        write!(f, "beyond the grade {}", self.missed)
    }
}

impl Tally {
    // Solves a line of at most 64 numbers and counts it; one that is refused counts as missed.
    pub(crate) fn take(&mut self, line: &[i64])
        requires { length line.now ≤ LONGEST }
    {
        // Room for the longest line, so that no heap is asked for.
        let mut room = [0; LONGEST];
        let answer = &mut room[..line.len()];
        self.lines = self.lines.saturating_add(1);
        match Elimination.solve(line, answer) {
            Ok(()) => self.weigh(line, answer),
            Err(_) => self.miss(),
        }
    }

    // Counts every place of a solved line.
    fn weigh(&mut self, line: &[i64], answer: &[i64])
        requires { length answer.now ≡ length line.now }
    {
        for (i, number) in line.iter().enumerate() {
            self.places = self.places.saturating_add(1);
            match residual(*number, answer, i) {
                Some(r) => self.note(r.unsigned_abs()),
                None => self.miss(),
            }
        }
    }

    fn note(&mut self, size: u64) {
        self.worst = self.worst.max(size);
        if size > u64::from(Elimination::GRADE) {
            self.miss();
        }
    }

    fn miss(&mut self) {
        self.missed = self.missed.saturating_add(1);
    }
}

// The number before, four times its own and the number after, the ends doubled, less six times the line's; none if that overflows.
fn residual(number: i64, answer: &[i64], i: usize) -> Option<i64>
    requires { i < length answer.now }
{
    let own = answer[i];
    let before = answer[i.saturating_sub(1)];
    let after = answer.get(i + 1).copied().unwrap_or(own);
    own.checked_mul(4)?
        .checked_add(before)?
        .checked_add(after)?
        .checked_sub(number.checked_mul(6)?)
}
