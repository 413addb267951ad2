// Fitting a whole panel: every first line, then every second line.
ghost use Rattle.std.specs.Prelude.{◌≡◌, true, map, is_err, Ok};
ghost use Rattle.grid.specs.Grid.{Grid};
ghost use Rattle.panel.specs.Calls.{all_current, first_lines, second_lines};
ghost use Rattle.panel.specs.Fit.{fit_answer, fit_panel, fit_halves, fit_controls, fit_history, Fitted, firsts_panel, seconds_panel, halves_fitted, controls_fitted, FirstReady, SecondReady};
ghost use Rattle.panel.specs.Runs.{Reached, History};

use crate::make::may_make;
use crate::record::Panel;
use grid::sample::Sample;
use line::solver::LineSolver;
use panel_fault::PanelFault;

impl Panel {
    // The checks of make, on the panel's own sizes.
    fn may_fit<K: Sample>(
        &self,
        samples: &[K],
        halves: &[K],
        controls: &[K],
    ) -> Result<(), PanelFault>
        ensures { result ≡ fit_answer self.now (map K.Sample.parts samples.now) (map K.Sample.parts halves.now) (map K.Sample.parts controls.now) }
    {
        may_make(
            i32::from(self.size.rows),
            i32::from(self.size.columns),
            samples,
            halves,
            controls,
        )
    }

    // Every first line, in order.
    fn fit_first_lines<K: Sample, S: LineSolver>(
        &mut self,
        samples: &[K],
        halves: &mut [K],
        solver: &S,
    ) -> Result<(), PanelFault>
        requires { FirstReady self.old (map K.Sample.parts samples.now) (map K.Sample.parts halves.old) }
        ensures answer { result ≡ Ok tt }
        ensures panel { self.new ≡ firsts_panel self.old S.LineSolver.meaning (first_lines self.old) }
        ensures after { map K.Sample.parts halves.new ≡ halves_fitted K.Sample.PARTS self.old S.LineSolver.meaning (map K.Sample.parts samples.now) (map K.Sample.parts halves.old) (first_lines self.old) }
    {
        for i in 0..self.first_lines() {
            self.first_line(samples, halves, i32::from(i) + 1, solver)?;
        }
        Ok(())
    }

    // Every second line, in order. No one loop serves both: each call lends other grids, and only one of the two may be written.
    fn fit_second_lines<K: Sample, S: LineSolver>(
        &mut self,
        halves: &[K],
        controls: &mut [K],
        solver: &S,
    ) -> Result<(), PanelFault>
        requires { (SecondReady K.Sample.PARTS self.old (map K.Sample.parts halves.now) (map K.Sample.parts controls.old)) × (all_current (first_lines self.old) self.old.first ≡ true) }
        ensures answer { result ≡ Ok tt }
        ensures panel { self.new ≡ seconds_panel self.old S.LineSolver.meaning (second_lines self.old) }
        ensures after { map K.Sample.parts controls.new ≡ controls_fitted K.Sample.PARTS self.old S.LineSolver.meaning (map K.Sample.parts halves.now) (map K.Sample.parts controls.old) (second_lines self.old) }
    {
        for j in 0..self.second_lines() {
            self.second_line(halves, controls, i32::from(j) + 1, solver)?;
        }
        Ok(())
    }

    // A whole fit with its checks.
    fn fitted<K: Sample, S: LineSolver, T: LineSolver>(
        &mut self,
        samples: &[K],
        halves: &mut [K],
        controls: &mut [K],
        first: &S,
        second: &T,
    ) -> Result<(), PanelFault>
        ensures answer { result ≡ fit_answer self.old (map K.Sample.parts samples.now) (map K.Sample.parts halves.old) (map K.Sample.parts controls.old) }
        ensures panel { self.new ≡ fit_panel self.old S.LineSolver.meaning T.LineSolver.meaning (map K.Sample.parts samples.now) (map K.Sample.parts halves.old) (map K.Sample.parts controls.old) }
        ensures halves { map K.Sample.parts halves.new ≡ fit_halves K.Sample.PARTS self.old S.LineSolver.meaning (map K.Sample.parts samples.now) (map K.Sample.parts halves.old) (map K.Sample.parts controls.old) }
        ensures controls { map K.Sample.parts controls.new ≡ fit_controls K.Sample.PARTS self.old S.LineSolver.meaning T.LineSolver.meaning (map K.Sample.parts samples.now) (map K.Sample.parts halves.old) (map K.Sample.parts controls.old) }
        ensures same { is_err result ≡ true → (halves.new ≡ halves.old) × (controls.new ≡ controls.old) }
    {
        self.may_fit(samples, halves, controls)?;
        self.fit_first_lines(samples, halves, first)?;
        self.fit_second_lines(halves, controls, second)?;
        Ok(())
    }

    // Fits the whole panel: every first line by one solver, then every second line by another, as if called one by one. It makes the
    // checks of make first; past them no line is refused, so a refusal leaves everything as it was.
    pub fn fit<K: Sample, S: LineSolver, T: LineSolver>(
        &mut self,
        samples: &[K],
        halves: &mut [K],
        controls: &mut [K],
        first: &S,
        second: &T,
    ) -> Result<(), PanelFault>
        ensures answer { result ≡ fit_answer self.old (map K.Sample.parts samples.now) (map K.Sample.parts halves.old) (map K.Sample.parts controls.old) }
        ensures panel { self.new ≡ fit_panel self.old S.LineSolver.meaning T.LineSolver.meaning (map K.Sample.parts samples.now) (map K.Sample.parts halves.old) (map K.Sample.parts controls.old) }
        ensures halves { map K.Sample.parts halves.new ≡ fit_halves K.Sample.PARTS self.old S.LineSolver.meaning (map K.Sample.parts samples.now) (map K.Sample.parts halves.old) (map K.Sample.parts controls.old) }
        ensures controls { map K.Sample.parts controls.new ≡ fit_controls K.Sample.PARTS self.old S.LineSolver.meaning T.LineSolver.meaning (map K.Sample.parts samples.now) (map K.Sample.parts halves.old) (map K.Sample.parts controls.old) }
        ensures same { is_err result ≡ true → (halves.new ≡ halves.old) × (controls.new ≡ controls.old) }
        ensures reached { (made : Grid) (h : History) →
            Reached K.Sample.PARTS made (record { panel = self.old; samples = map K.Sample.parts samples.now; halves = map K.Sample.parts halves.old; controls = map K.Sample.parts controls.old }) h →
            Fitted K.Sample.PARTS made (record { panel = self.new; samples = map K.Sample.parts samples.now; halves = map K.Sample.parts halves.new; controls = map K.Sample.parts controls.new })
            (fit_history self.old S.LineSolver.meaning T.LineSolver.meaning h) result }
    {
        self.fitted(samples, halves, controls, first, second)
    }
}
