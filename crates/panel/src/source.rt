// Lines of a grid solved part by part, and stored along the same lane of another grid.
ghost use Rattle.std.specs.Prelude.{◌≡◌, ◌<◌, ◌≤◌, true, ◌++◌, map, length, drop, is_err, OnOk};
ghost use Rattle.grid.specs.Checks.{if_ok};
ghost use Rattle.line.specs.Solve.{solve_answer};
ghost use Rattle.panel.specs.Calls.{solver_took, solver_takes};
ghost use Rattle.panel.specs.Lane.{Inside, laned, column, rule_column, Narrow, stored, Filled};
ghost use Rattle.panel_fault.specs.Refusal.{as_answer};

use crate::lane::Lane;
use grid::sample::Sample;
use line::solver::{LONGEST, LineSolver, SolveFault};
use panel_fault::SolverRefusal;

// A line of samples to be solved: the lane of a grid, and the factor of its parts.
#[derive(Drop)]
pub(crate) struct Source<'a, K> {
    pub(crate) grid: &'a [K],
    pub(crate) lane: Lane,
    pub(crate) scale: u8,
    ghost inside: { Inside lane (length grid.now) },
    ghost low: { scale ≤ 16 },
}

// The line of each part as a solver answered it, and 0 past its end.
#[derive(Drop)]
pub(crate) struct Solved<'a> {
    parts: &'a [[i64; LONGEST]; 4],
    ghost narrow: { Narrow parts.now },
}

impl<K: Sample> Source<'_, K> {
    // One part along the lane, times the factor.
    fn gather(&self, part: usize, line: &mut [i64])
        requires { length line.old ≡ self.now.lane.count }
        ensures { line.new ≡ laned self.now.scale (map K.Sample.parts self.now.grid.now) self.now.lane part }
    {
        for (e, number) in line.iter_mut().enumerate() {
            let sample = self.grid[self.lane.index(e)];
            *number = i64::from(self.scale) * i64::from(sample.part(part));
        }
    }

    // The solver on one part; its line begins the output. A refusal carries both numbers.
    fn solve_part<S: LineSolver>(
        &self,
        number: usize,
        part: usize,
        solver: &S,
        out: &mut [i64; LONGEST],
    ) -> Result<(), SolverRefusal>
        requires { self.now.lane.count ≤ 64 }
        ensures answer { as_answer result ≡ solver_took number part (solve_answer (laned self.now.scale (map K.Sample.parts self.now.grid.now) self.now.lane part) self.now.lane.count) }
        ensures after { out.new ≡ if_ok result (S.LineSolver.meaning.rule (laned self.now.scale (map K.Sample.parts self.now.grid.now) self.now.lane part) ++ drop self.now.lane.count out.old) out.old }
    {
        let n = self.lane.count;
        // As long as a line may be, since there is no heap.
        let mut scratch = [0; LONGEST];
        let line = &mut scratch[..n];
        self.gather(part, line);
        solver
            .solve(line, &mut out[..n])
            .map_err(|fault| SolverRefusal {
                line: number,
                part,
                fault,
            })
    }

    // The solver on all parts, in order.
    fn solve<S: LineSolver>(
        &self,
        number: usize,
        solver: &S,
        parts: &mut [[i64; LONGEST]; 4],
    ) -> Result<(), SolverRefusal>
        requires { Narrow parts.old }
        ensures answer { as_answer result ≡ solver_takes number 1 K.Sample.PARTS (laned self.now.scale (map K.Sample.parts self.now.grid.now) self.now.lane) }
        ensures filled { OnOk result ((self.now.lane.count ≤ 64) × Filled K.Sample.PARTS self.now.lane.count S.LineSolver.meaning.rule (laned self.now.scale (map K.Sample.parts self.now.grid.now) self.now.lane) parts.new) }
        ensures narrow { Narrow parts.new }
    {
        if self.lane.count > LONGEST {
            return Err(SolverRefusal {
                line: number,
                part: 1,
                fault: SolveFault::Length,
            });
        }
        for (q, line) in parts[..K::PARTS].iter_mut().enumerate() {
            self.solve_part(number, q + 1, solver, line)?;
        }
        Ok(())
    }
}

impl Solved<'_> {
    // A sample with the parts at entry e.
    fn at<K: Sample>(&self, e: usize, other: K) -> K
        requires { e < 64 }
        ensures { K.Sample.parts result ≡ column K.Sample.PARTS self.now.parts.now e }
    {
        let parts = self.parts;
        let mut sample = other;
        for (q, line) in parts[..K::PARTS].iter().enumerate() {
            sample = sample.replace_part(q + 1, line[e] as i32);
        }
        sample
    }

    // Stores the samples along a lane.
    fn store<K: Sample>(&self, target: &mut [K], lane: Lane)
        requires { (Inside lane (length target.old)) × (lane.count ≤ 64) }
        ensures { map K.Sample.parts target.new ≡ stored lane (column K.Sample.PARTS self.now.parts.now) lane.count (map K.Sample.parts target.old) }
    {
        // By entry: of a loop over `step_by` the proof would know what the iterator gave, and not the grid behind it.
        for e in 0..lane.count {
            let at = lane.index(e);
            target[at] = self.at(e, target[at]);
        }
    }
}

// Solves a line and stores it in another grid. Nothing is stored before the last part is solved.
pub(crate) fn fit_line<K: Sample, S: LineSolver>(
    source: &Source<'_, K>,
    target: &mut [K],
    number: usize,
    solver: &S,
) -> Result<(), SolverRefusal>
    requires { Inside source.now.lane (length target.old) }
    ensures answer { as_answer result ≡ solver_takes number 1 K.Sample.PARTS (laned source.now.scale (map K.Sample.parts source.now.grid.now) source.now.lane) }
    ensures after { map K.Sample.parts target.new ≡ if_ok result (stored source.now.lane (rule_column K.Sample.PARTS S.LineSolver.meaning.rule (laned source.now.scale (map K.Sample.parts source.now.grid.now) source.now.lane)) source.now.lane.count (map K.Sample.parts target.old)) (map K.Sample.parts target.old) }
    ensures same { is_err result ≡ true → target.new ≡ target.old }
{
    let mut parts = [[0; LONGEST]; 4];
    // By name, so that an edit can come between what was answered and what is stored.
    let answer = source.solve(number, solver, &mut parts);
    answer?;
    let solved = Solved { parts: &parts };
    solved.store(target, source.lane);
    Ok(())
}
