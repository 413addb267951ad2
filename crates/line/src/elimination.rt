// The solver by elimination, after the recurrences of Cheng and Goshtasby: with n numbers k, six times the line,
//     w 1 = 1 / 5,  w j = 1 / (4 - w (j - 1)),  w n = 1 / (5 - w (n - 1)),
//     g 1 = k 1 w 1,  g j = (k j - g (j - 1)) w j,
//     x n = g n,  x j = g j - w j x (j + 1),
// in finer units, 65,536 to one, each x rounded to the nearest whole number at the end.
ghost use Rattle.std.specs.Prelude.{◌≡◌, ◌*◌, ◌^◌, ◌≤◌, List, length, ℤ, pos, ◌-ℤ◌, ◌*ℤ◌, Ok, unsigned_abs, refl};
ghost use Rattle.line.specs.Line.{Within};
ghost use Rattle.line.specs.Solver.{Admitted, WholeSolution, limit};
ghost use Rattle.line.specs.Solve.{solve_answer, solve_after};
ghost use Rattle.line.specs.FixedPoint.{scale, fraction, nearest};
ghost use Rattle.line.specs.Elimination.{forwards, backs, forward_limit, back_limit, elimination};
ghost use Rattle.line.specs.Eliminated;

use crate::pivot::Pivot;
use crate::solver::{LineSolver, SolveFault, accept};

// Finer units in six, and in a half.
const SIX: i64 = 6 * 65_536;

const HALF: i64 = 32_768;

// g j, from the pivot w j, the number k j of the line and g (j - 1).
fn forward_step(pivot: Pivot, k: i64, g: i64) -> i64
    requires { (unsigned_abs k ≤ limit) × (unsigned_abs g ≤ forward_limit) }
    ensures { result ≡ fraction pivot.w (pos (6 * scale) *ℤ k -ℤ g) }
{
    pivot.part_of(SIX * k - g)
}

// x j, from the pivot w j, g j and x (j + 1).
fn back_step(pivot: Pivot, g: i64, x: i64) -> i64
    requires { (unsigned_abs g ≤ forward_limit) × (unsigned_abs x ≤ back_limit) }
    ensures { result ≡ g -ℤ fraction pivot.w x }
{
    g - pivot.part_of(x)
}

// The whole number nearest to v finer units.
fn rounded(v: i64) -> i64
    requires { unsigned_abs v ≤ 2 ^ 62 }
    ensures { result ≡ nearest scale v }
{
    (v + HALF) >> 16
}

// Leaves the numbers g in the output line.
fn sweep_forward(line: &[i64], out: &mut [i64])
    requires { (Admitted line.now) × (length out.old ≡ length line.now) }
    ensures { out.new ≡ forwards line.now }
{
    let (last, before) = line.split_last().unwrap();
    let mut g = 0;
    // Written by index: after `zip(out.iter_mut())` a proof knows none of the numbers.
    for (j, k) in before.iter().enumerate() {
        g = forward_step(Pivot::inner(j + 1), *k, g);
        out[j] = g;
    }
    out[before.len()] = forward_step(Pivot::last(line.len()), *last, g);
}

// Turns the numbers g of the line into the numbers x, rounded. Beyond the last x stands 0, so any pivot serves there.
fn sweep_back(out: &mut [i64])
    requires { (length out.old ≤ 64) × (Within forward_limit out.old) }
    ensures { out.new ≡ backs out.old }
{
    let mut x = 0;
    // By index: after `iter_mut().rev()` a proof knows none of the numbers, and each costs two instructions more.
    for j in (0..out.len()).rev() {
        x = back_step(Pivot::inner(j + 1), out[j], x);
        out[j] = rounded(x);
    }
}

// The solver: grade 3, and exact wherever the exact solution consists of whole numbers.
#[derive(Clone, Copy)]
pub struct Elimination;

impl LineSolver for Elimination {
    const GRADE: u8 = 3;

    ghost GRADE = { 3 };

    ghost meaning = { elimination };

    ghost sound = { Eliminated.sound };

    ghost graded = { refl };

    // As a part of its caller: else a fit of points takes a fourteenth more instructions.
    #[inline]
    fn solve(&self, line: &[i64], out: &mut [i64]) -> Result<(), SolveFault>
        ensures answer { result ≡ solve_answer line.now (length out.old) }
        ensures after { out.new ≡ solve_after elimination line.now out.old }
        ensures whole { (z : List ℤ) → WholeSolution line.now z → result ≡ Ok tt → out.new ≡ z }
    {
        accept(line, out.len())?;
        sweep_forward(line, out);
        sweep_back(out);
        Ok(())
    }
}
