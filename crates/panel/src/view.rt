// The control points of a panel as they are read around one place.
ghost use Rattle.std.specs.Prelude.{◌≡◌, ℕ, ◌-◌, ◌*◌, ◌<◌, map, length, if◌then◌else◌, Some, None, Ok, slice_index};
ghost use Rattle.std.specs.List.{range_with_len};
ghost use Rattle.std.specs.Result.{result_and};
ghost use Rattle.grid.specs.Checks.{check as checked};
ghost use Rattle.grid.specs.Grid.{at};
ghost use Rattle.line.specs.Line.{OnLine};
ghost use Rattle.surface.specs.Patch.{within_reach};
ghost use Rattle.panel.specs.Calls.{mark, grade_of};
ghost use Rattle.panel.specs.Reading.{InArea, needed, needed_within, around, reading as part_read, greatest, tolerance as stated, sample_shown};

use crate::marks::mark_of;
use crate::record::{Panel, index_of};
use grid::sample::Sample;
use grid::size::Place;
use panel_fault::PanelFault;
use surface::patch::{lines_around, patch_reading, tolerance};

// A panel, its control points, and a place of its area in 32nds.
#[derive(Drop)]
pub(crate) struct View<'a, K> {
    pub(crate) panel: &'a Panel,
    pub(crate) controls: &'a [K],
    pub(crate) x: usize,
    pub(crate) y: usize,
    ghost sized: { length controls.now ≡ panel.now.size.rows * panel.now.size.columns },
    ghost in_area: { InArea panel.now x y },
}

impl<K: Sample> View<'_, K> {
    // One part of the control point at a row and a column.
    fn control(&self, part: usize, row: usize, column: usize) -> i32
        requires { (OnLine self.now.panel.now.size.rows row) × (OnLine self.now.panel.now.size.columns column) }
        ensures { result ≡ at self.now.panel.now.size.columns (map K.Sample.parts self.now.controls.now) part row column }
    {
        let k = index_of(self.controls.len(), self.panel.size, Place { row, column });
        self.controls[k].part(part)
    }

    // The same along four columns of a row. Written out: as a closure, what is asked of a column would need clauses of its own.
    fn four_controls(&self, part: usize, row: usize, columns: &[usize; 4]) -> [i32; 4]
        requires { (OnLine self.now.panel.now.size.rows row) × ((b : ℕ) → b < 4 → OnLine self.now.panel.now.size.columns (slice_index columns.now b)) }
        ensures { result ≡ map (λ b. at self.now.panel.now.size.columns (map K.Sample.parts self.now.controls.now) part row (slice_index columns.now b)) (range_with_len 0 4) }
    {
        [
            self.control(part, row, columns[0]),
            self.control(part, row, columns[1]),
            self.control(part, row, columns[2]),
            self.control(part, row, columns[3]),
        ]
    }

    // One part of the sixteen control points around the place, row by row; written out as above.
    fn patch(&self, part: usize) -> [[i32; 4]; 4]
        ensures { result ≡ map (λ a. map (around self.now.panel.now (map K.Sample.parts self.now.controls.now) part self.now.x self.now.y a) (range_with_len 0 4)) (range_with_len 0 4) }
    {
        let rows = lines_around(usize::from(self.panel.size.rows), self.x);
        let columns = lines_around(usize::from(self.panel.size.columns), self.y);
        [
            self.four_controls(part, rows[0], &columns),
            self.four_controls(part, rows[1], &columns),
            self.four_controls(part, rows[2], &columns),
            self.four_controls(part, rows[3], &columns),
        ]
    }

    // One part of the reading; none if a control point lies beyond reach.
    fn part_reading(&self, part: usize) -> Option<i32>
        ensures { result ≡ (if within_reach (around self.now.panel.now (map K.Sample.parts self.now.controls.now) part self.now.x self.now.y) then Some (part_read self.now.panel.now (map K.Sample.parts self.now.controls.now) self.now.x self.now.y part) else None) }
    {
        patch_reading(&self.patch(part), self.x, self.y)
    }

    // The reading as a sample: any sample of the kind, with each part replaced.
    pub(crate) fn reading(&self) -> Result<K, PanelFault>
        ensures { sample_shown K.Sample.parts result ≡ result_and (checked (needed_within K.Sample.PARTS self.now.panel.now (map K.Sample.parts self.now.controls.now) self.now.x self.now.y) PanelFault.ControlBeyond) (Ok (map (part_read self.now.panel.now (map K.Sample.parts self.now.controls.now) self.now.x self.now.y) (range_with_len 1 K.Sample.PARTS))) }
    {
        let mut sample = self.controls[0];
        // A half-open range: a closed one is not unrolled, and a reading of a point takes a sixth more instructions.
        for part in 1..K::PARTS + 1 {
            let value = self.part_reading(part).ok_or(PanelFault::ControlBeyond)?;
            sample = sample.replace_part(part, value);
        }
        Ok(sample)
    }

    // The greatest grade of the second lines that the reading needs.
    fn second_grade(&self) -> u8
        ensures { result ≡ greatest (λ a. grade_of (mark self.now.panel.now.second (needed self.now.panel.now self.now.x self.now.y (a - 1)))) 4 }
    {
        let mut most = 0;
        for line in &self.panel.needed(self.x, self.y) {
            most = mark_of(&self.panel.second, *line).grade().max(most);
        }
        most
    }

    // The tolerance of the reading.
    pub(crate) fn tolerance(&self) -> u32
        ensures { result ≡ stated self.now.panel.now self.now.x self.now.y }
    {
        tolerance(self.panel.first_grade(), self.second_grade())
    }
}
