// A second solver, so that lines of one panel can be run by solvers of two grades.
ghost use Rattle.panel_tests.specs.Coarse.{coarse};
ghost use Rattle.std.proofs.Common.{arith, refl};
ghost use Rattle.line.specs.Eliminated;

use line::elimination::Elimination;
use line::solver::{LineSolver, SolveFault};

// Elimination that claims no more than the grade 7.
#[derive(Clone, Copy)]
pub struct Coarse;

impl LineSolver for Coarse {
    const GRADE: u8 = 7;

    ghost GRADE = { 7 };

    ghost meaning = { coarse };

    ghost sound = { record {
      graded = (Prim.omega arith, Prim.omega arith);
      long = (Eliminated.sound).long;
      near = λ k admitted j on. Prim.omega (arith, (Eliminated.sound).near k admitted j on);
    } };

    ghost graded = { refl };

    fn solve(&self, line: &[i64], out: &mut [i64]) -> Result<(), SolveFault> {
        Elimination.solve(line, out)
    }
}
