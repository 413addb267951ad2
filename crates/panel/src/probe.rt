// Probing a place again. Row and column stay the two numbers that a carver typed until they are checked; then they are a place.
ghost use Rattle.std.specs.Prelude.{◌≡◌, ◌<◌, ◌&&◌, map, slice_set, unsigned_abs};
ghost use Rattle.grid.specs.Checks.{if_ok};
ghost use Rattle.grid.specs.Grid.{Grid};
ghost use Rattle.grid.specs.Place.{index};
ghost use Rattle.panel.specs.Calls.{between, probe_limit, probed_panel, probe_answer, probe_panel, probe_samples};
ghost use Rattle.panel.specs.Runs.{Reached, History, recorded};
ghost use Rattle.panel.specs.Runs.Event.{probed};

use crate::checks::{is_between, parts_within};
use crate::marks::{let_go, let_go_at};
use crate::record::{Panel, index_of};
use grid::checks::check;
use grid::sample::Sample;
use grid::size::Place;
use panel_fault::PanelFault;

impl Panel {
    // Whether the grids have the place.
    fn has_place(&self, row: i32, column: i32) -> bool
        ensures { result ≡ (between row 1 self.now.size.rows && between column 1 self.now.size.columns) }
    {
        is_between(row, 1, usize::from(self.size.rows))
            && is_between(column, 1, usize::from(self.size.columns))
    }

    // The checks of a probe, in their order.
    fn may_probe<K: Sample>(
        &self,
        samples: &[K],
        row: i32,
        column: i32,
        new: &K,
    ) -> Result<(), PanelFault>
        ensures { result ≡ probe_answer self.now (map K.Sample.parts samples.now) row column (K.Sample.parts new.now) }
    {
        check(self.is_sized(samples), PanelFault::GridLength)?;
        check(self.has_place(row, column), PanelFault::Place)?;
        let place = Place {
            row: row as usize,
            column: column as usize,
        };
        parts_within(place, new)?;
        check(self.probes < 60_000, PanelFault::TooManyProbes)
    }

    // One probe more: the first line through the place goes stale, and every second line.
    fn count_probe(&mut self, place: Place)
        requires { self.old.probes < probe_limit }
        ensures { self.new ≡ probed_panel self.old place.row place.column }
    {
        let line = self.order.pick(place.row, place.column);
        self.probes += 1;
        let_go_at(&mut self.first, line);
        let_go(&mut self.second);
    }

    // A probe with its checks and its writes.
    fn put<K: Sample>(
        &mut self,
        samples: &mut [K],
        row: i32,
        column: i32,
        new: K,
    ) -> Result<(), PanelFault>
        ensures answer { result ≡ probe_answer self.old (map K.Sample.parts samples.old) row column (K.Sample.parts new) }
        ensures panel { self.new ≡ probe_panel self.old (map K.Sample.parts samples.old) row column (K.Sample.parts new) }
        ensures after { map K.Sample.parts samples.new ≡ probe_samples self.old (map K.Sample.parts samples.old) row column (K.Sample.parts new) }
        ensures same { samples.new ≡ if_ok result (slice_set samples.old (index self.old.size.columns (unsigned_abs row) (unsigned_abs column)) new) samples.old }
    {
        self.may_probe(samples, row, column, &new)?;
        let place = Place {
            row: row as usize,
            column: column as usize,
        };
        let k = index_of(samples.len(), self.size, place);
        samples[k] = new;
        self.count_probe(place);
        Ok(())
    }

    // Puts a sample at a place, rows and columns counted from 1. It counts as a probe even if an equal sample stood there.
    pub fn probe<K: Sample>(
        &mut self,
        samples: &mut [K],
        row: i32,
        column: i32,
        new: K,
    ) -> Result<(), PanelFault>
        ensures answer { result ≡ probe_answer self.old (map K.Sample.parts samples.old) row column (K.Sample.parts new) }
        ensures panel { self.new ≡ probe_panel self.old (map K.Sample.parts samples.old) row column (K.Sample.parts new) }
        ensures after { map K.Sample.parts samples.new ≡ probe_samples self.old (map K.Sample.parts samples.old) row column (K.Sample.parts new) }
        ensures same { samples.new ≡ if_ok result (slice_set samples.old (index self.old.size.columns (unsigned_abs row) (unsigned_abs column)) new) samples.old }
        ensures reached { (made halves controls : Grid) (h : History) →
            Reached K.Sample.PARTS made (record { panel = self.old; samples = map K.Sample.parts samples.old; halves = halves; controls = controls }) h →
            Reached K.Sample.PARTS made (record { panel = self.new; samples = map K.Sample.parts samples.new; halves = halves; controls = controls })
            (recorded result (probed (unsigned_abs row) (unsigned_abs column) (K.Sample.parts new)) h) }
    {
        self.put(samples, row, column, new)
    }
}
