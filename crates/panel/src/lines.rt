// Fitting a first line and a second line: the same walk along the other lines of a grid, with another source and another factor.
ghost use Rattle.std.specs.Prelude.{◌≡◌, ◌<◌, true, ◌&&◌, map, is_err, unsigned_abs};
ghost use Rattle.std.specs.Result.{result_and};
ghost use Rattle.grid.specs.Checks.{check as checked};
ghost use Rattle.grid.specs.Grid.{Grid};
ghost use Rattle.panel.specs.Calls.{between, sized, all_current, first_lines, second_lines, first_ran_panel, second_ran_panel, first_answer, first_panel, first_halves, second_answer, second_panel, second_controls};
ghost use Rattle.panel.specs.Lane.{row_lane, column_lane, first_lane, second_lane};
ghost use Rattle.panel.specs.Runs.{Reached, History, recorded, first_refusals, second_refusals};
ghost use Rattle.panel.specs.Runs.Event.{first_ran, second_ran};

use crate::checks::is_between;
use crate::lane::Lane;
use crate::marks::{all_current, let_go, run_at};
use crate::record::Panel;
use crate::source::{Source, fit_line};
use grid::checks::check;
use grid::sample::Sample;
use line::solver::LineSolver;
use panel_fault::PanelFault;

impl Panel {
    // Below 256, so that its start fits.
    fn row_lane(&self, row: usize) -> Lane
        requires { row < 256 }
        ensures { result ≡ row_lane self.now row }
    {
        let columns = usize::from(self.size.columns);
        Lane {
            start: row.saturating_sub(1) * columns,
            step: 1,
            count: columns,
        }
    }

    fn column_lane(&self, column: usize) -> Lane
        ensures { result ≡ column_lane self.now column }
    {
        Lane {
            start: column.saturating_sub(1),
            step: usize::from(self.size.columns),
            count: usize::from(self.size.rows),
        }
    }

    fn first_lane(&self, line: usize) -> Lane
        requires { line < 256 }
        ensures { result ≡ first_lane self.now line }
    {
        self.order.pick(self.row_lane(line), self.column_lane(line))
    }

    fn second_lane(&self, line: usize) -> Lane
        requires { line < 256 }
        ensures { result ≡ second_lane self.now line }
    {
        self.order.pick(self.column_lane(line), self.row_lane(line))
    }

    // The checks of a line call before the solver's own.
    fn may_run<K: Sample>(
        &self,
        source: &[K],
        target: &[K],
        line: i32,
        count: u8,
    ) -> Result<(), PanelFault>
        ensures { result ≡ result_and (checked (sized self.now (map K.Sample.parts source.now) && sized self.now (map K.Sample.parts target.now)) PanelFault.GridLength) (checked (between line 1 count) PanelFault.NoLine) }
    {
        check(
            self.is_sized(source) && self.is_sized(target),
            PanelFault::GridLength,
        )?;
        check(is_between(line, 1, usize::from(count)), PanelFault::NoLine)
    }

    // Whether every first line is current.
    fn first_lines_are_current(&self) -> bool
        ensures { result ≡ all_current (first_lines self.now) self.now.first }
    {
        all_current(&self.first, usize::from(self.first_lines()))
    }

    // A first line ran, so every second line goes stale.
    fn first_ran(&mut self, line: usize, grade: u8)
        ensures { self.new ≡ first_ran_panel self.old line grade }
    {
        run_at(&mut self.first, line, grade);
        let_go(&mut self.second);
    }

    fn second_ran(&mut self, line: usize, grade: u8)
        ensures { self.new ≡ second_ran_panel self.old line grade }
    {
        run_at(&mut self.second, line, grade);
    }

    // A first line with its checks and its writes.
    fn run_first<K: Sample, S: LineSolver>(
        &mut self,
        samples: &[K],
        halves: &mut [K],
        line: i32,
        solver: &S,
    ) -> Result<(), PanelFault>
        ensures answer { result ≡ first_answer K.Sample.PARTS self.old (map K.Sample.parts samples.now) (map K.Sample.parts halves.old) line }
        ensures panel { self.new ≡ first_panel K.Sample.PARTS self.old S.LineSolver.meaning (map K.Sample.parts samples.now) (map K.Sample.parts halves.old) line }
        ensures after { map K.Sample.parts halves.new ≡ first_halves K.Sample.PARTS self.old S.LineSolver.meaning (map K.Sample.parts samples.now) (map K.Sample.parts halves.old) line }
        ensures same { is_err result ≡ true → halves.new ≡ halves.old }
    {
        self.may_run(samples, halves, line, self.first_lines())?;
        let number = line as usize;
        let lane = self.first_lane(number);
        let source = Source {
            grid: samples,
            lane,
            scale: 16,
        };
        fit_line(&source, halves, number, solver)?;
        self.first_ran(number, S::GRADE);
        Ok(())
    }

    // A second line with its checks and its writes. It is no twin of the first: it asks that all first lines are current, and leaves other
    // marks.
    fn run_second<K: Sample, S: LineSolver>(
        &mut self,
        halves: &[K],
        controls: &mut [K],
        line: i32,
        solver: &S,
    ) -> Result<(), PanelFault>
        ensures answer { result ≡ second_answer K.Sample.PARTS self.old (map K.Sample.parts halves.now) (map K.Sample.parts controls.old) line }
        ensures panel { self.new ≡ second_panel K.Sample.PARTS self.old S.LineSolver.meaning (map K.Sample.parts halves.now) (map K.Sample.parts controls.old) line }
        ensures after { map K.Sample.parts controls.new ≡ second_controls K.Sample.PARTS self.old S.LineSolver.meaning (map K.Sample.parts halves.now) (map K.Sample.parts controls.old) line }
        ensures same { is_err result ≡ true → controls.new ≡ controls.old }
    {
        self.may_run(halves, controls, line, self.second_lines())?;
        check(self.first_lines_are_current(), PanelFault::FirstStale)?;
        let number = line as usize;
        let lane = self.second_lane(number);
        let source = Source {
            grid: halves,
            lane,
            scale: 1,
        };
        fit_line(&source, controls, number, solver)?;
        self.second_ran(number, S::GRADE);
        Ok(())
    }

    // Fits a first line, counted from 1: its half points become, part by part, the solver's line for 16 times its samples.
    pub fn first_line<K: Sample, S: LineSolver>(
        &mut self,
        samples: &[K],
        halves: &mut [K],
        line: i32,
        solver: &S,
    ) -> Result<(), PanelFault>
        ensures answer { result ≡ first_answer K.Sample.PARTS self.old (map K.Sample.parts samples.now) (map K.Sample.parts halves.old) line }
        ensures panel { self.new ≡ first_panel K.Sample.PARTS self.old S.LineSolver.meaning (map K.Sample.parts samples.now) (map K.Sample.parts halves.old) line }
        ensures after { map K.Sample.parts halves.new ≡ first_halves K.Sample.PARTS self.old S.LineSolver.meaning (map K.Sample.parts samples.now) (map K.Sample.parts halves.old) line }
        ensures same { is_err result ≡ true → halves.new ≡ halves.old }
        ensures reached { (made controls : Grid) (h : History) →
            Reached K.Sample.PARTS made (record { panel = self.old; samples = map K.Sample.parts samples.now; halves = map K.Sample.parts halves.old; controls = controls }) h →
            (result ≡ first_refusals self.old line) ×
            Reached K.Sample.PARTS made (record { panel = self.new; samples = map K.Sample.parts samples.now; halves = map K.Sample.parts halves.new; controls = controls })
            (recorded result (first_ran (unsigned_abs line) S.LineSolver.meaning) h) }
    {
        self.run_first(samples, halves, line, solver)
    }

    // Fits a second line, counted from 1: its control points become, part by part, the solver's line for its half points.
    pub fn second_line<K: Sample, S: LineSolver>(
        &mut self,
        halves: &[K],
        controls: &mut [K],
        line: i32,
        solver: &S,
    ) -> Result<(), PanelFault>
        ensures answer { result ≡ second_answer K.Sample.PARTS self.old (map K.Sample.parts halves.now) (map K.Sample.parts controls.old) line }
        ensures panel { self.new ≡ second_panel K.Sample.PARTS self.old S.LineSolver.meaning (map K.Sample.parts halves.now) (map K.Sample.parts controls.old) line }
        ensures after { map K.Sample.parts controls.new ≡ second_controls K.Sample.PARTS self.old S.LineSolver.meaning (map K.Sample.parts halves.now) (map K.Sample.parts controls.old) line }
        ensures same { is_err result ≡ true → controls.new ≡ controls.old }
        ensures reached { (made samples : Grid) (h : History) →
            Reached K.Sample.PARTS made (record { panel = self.old; samples = samples; halves = map K.Sample.parts halves.now; controls = map K.Sample.parts controls.old }) h →
            (result ≡ second_refusals self.old h line) ×
            Reached K.Sample.PARTS made (record { panel = self.new; samples = samples; halves = map K.Sample.parts halves.now; controls = map K.Sample.parts controls.new })
            (recorded result (second_ran (unsigned_abs line) S.LineSolver.meaning) h) }
    {
        self.run_second(halves, controls, line, solver)
    }
}
