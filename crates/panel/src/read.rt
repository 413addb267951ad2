// Reading the fitted surface at a place, with the tolerance of the reading. The place stays the two numbers that came in until they are checked;
// then a view holds them.
ghost use Rattle.std.specs.Prelude.{◌≡◌, ℕ, ◌-◌, ◌*◌, map, pos, unsigned_abs};
ghost use Rattle.std.specs.List.{range_with_len};
ghost use Rattle.std.specs.Result.{result_and};
ghost use Rattle.grid.specs.Checks.{check as checked};
ghost use Rattle.grid.specs.Grid.{Grid};
ghost use Rattle.panel.specs.Calls.{sized, mark, grade_of, first_lines};
ghost use Rattle.panel.specs.Reading.{InArea, in_area, needed as needed_line, needed_current, greatest, read_answer, shown};
ghost use Rattle.panel.specs.Runs.{Reached, History, ReadsFaithfully};

use crate::checks::is_between;
use crate::marks::{are_current, greatest_grade};
use crate::record::Panel;
use crate::view::View;
use grid::checks::check;
use grid::sample::Sample;
use panel_fault::PanelFault;
use surface::patch::lines_around;

// The last place, in 32nds, before the last of so many rows or columns.
fn last_before(count: u8) -> usize
    ensures { result ≡ 32 * count - 1 }
{
    (32 * usize::from(count)).saturating_sub(1)
}

impl Panel {
    // Whether a place lies in the area that is read.
    fn has_in_area(&self, x: i32, y: i32) -> bool
        ensures { result ≡ in_area self.now x y }
    {
        is_between(x, 32, last_before(self.size.rows))
            && is_between(y, 32, last_before(self.size.columns))
    }

    // The second lines through the sixteen control points around a place.
    pub(crate) fn needed(&self, x: usize, y: usize) -> [usize; 4]
        ensures { result ≡ map (needed_line self.now x y) (range_with_len 0 4) }
    {
        lines_around(usize::from(self.second_lines()), self.order.pick(y, x))
    }

    // Whether each of them is current.
    fn needed_are_current(&self, x: usize, y: usize) -> bool
        ensures { result ≡ needed_current self.now x y }
    {
        are_current(&self.second, &self.needed(x, y))
    }

    // The checks of a reading before that of its control points.
    fn may_read<K: Sample>(&self, controls: &[K], x: i32, y: i32) -> Result<(), PanelFault>
        ensures { result ≡ result_and (checked (sized self.now (map K.Sample.parts controls.now)) PanelFault.GridLength) (result_and (checked (in_area self.now x y) PanelFault.OutsideArea) (checked (needed_current self.now (unsigned_abs x) (unsigned_abs y)) PanelFault.SecondStale)) }
    {
        check(self.is_sized(controls), PanelFault::GridLength)?;
        check(self.has_in_area(x, y), PanelFault::OutsideArea)?;
        check(
            self.needed_are_current(x as usize, y as usize),
            PanelFault::SecondStale,
        )
    }

    // The greatest grade of all first lines.
    pub(crate) fn first_grade(&self) -> u8
        ensures { result ≡ greatest (λ i. grade_of (mark self.now.first i)) (first_lines self.now) }
    {
        greatest_grade(&self.first, usize::from(self.first_lines()))
    }

    // A reading with its checks.
    fn answered<K: Sample>(&self, controls: &[K], x: i32, y: i32) -> Result<(K, u32), PanelFault>
        ensures { shown K.Sample.parts result ≡ read_answer K.Sample.PARTS self.now (map K.Sample.parts controls.now) x y }
    {
        self.may_read(controls, x, y)?;
        let view = View {
            panel: self,
            controls,
            x: x as usize,
            y: y as usize,
        };
        let sample = view.reading()?;
        Ok((sample, view.tolerance()))
    }

    // Reads the surface at x along the rows' numbering and y along the columns', in 32nds with row 1 at 32: the reading in fine units, part
    // by part, and its tolerance. After any calls since make each part lies within half the tolerance of the exact surface through the samples held.
    pub fn read<K: Sample>(&self, controls: &[K], x: i32, y: i32) -> Result<(K, u32), PanelFault>
        ensures answer { shown K.Sample.parts result ≡ read_answer K.Sample.PARTS self.now (map K.Sample.parts controls.now) x y }
        ensures faithful { (made samples halves : Grid) (h : History) (u v : ℕ) → x ≡ pos u → y ≡ pos v →
            Reached K.Sample.PARTS made (record { panel = self.now; samples = samples; halves = halves; controls = map K.Sample.parts controls.now }) h →
            InArea self.now u v →
            ReadsFaithfully K.Sample.PARTS self.now made h u v (shown K.Sample.parts result) }
    {
        self.answered(controls, x, y)
    }
}
