// What the calls check, each check under the name of its definition.
ghost use Rattle.std.specs.Prelude.{◌≡◌, ◌<◌, map, length, ◌==◌, nat_le, unsigned_abs};
ghost use Rattle.panel.specs.Calls.{between, sized, parts_within, grid_within, part_limit};

use crate::record::Panel;
use grid::sample::Sample;
use grid::size::Place;
use panel_fault::PanelFault;

// Whether a number lies between two limits, both included. What passed is then cast by `as`: a second `try_from` would add a branch that never
// fails.
pub(crate) fn is_between(v: i32, low: usize, high: usize) -> bool
    ensures { result ≡ between v low high }
{
    usize::try_from(v).is_ok_and(|v| (low..=high).contains(&v))
}

// Whether a part lies within 100,000 either way.
fn is_within(v: i32) -> bool
    ensures { result ≡ nat_le (unsigned_abs v) part_limit }
{
    (-100_000..=100_000).contains(&v)
}

// Refuses the first part of a sample that lies beyond 100,000 either way.
pub(crate) fn parts_within<K: Sample>(place: Place, sample: &K) -> Result<(), PanelFault>
    ensures { result ≡ parts_within place.row place.column 1 (K.Sample.parts sample.now) }
{
    for part in 1..=K::PARTS {
        if !is_within(sample.part(part)) {
            let Place { row, column } = place;
            return Err(PanelFault::PartBeyond { row, column, part });
        }
    }
    Ok(())
}

// The same over all samples of a grid, row by row.
pub(crate) fn grid_within<K: Sample>(samples: &[K], columns: usize) -> Result<(), PanelFault>
    requires { 0 < columns }
    ensures { result ≡ grid_within columns 0 (map K.Sample.parts samples.now) }
{
    for (k, sample) in samples.iter().enumerate() {
        let place = Place {
            row: k / columns + 1,
            column: k % columns + 1,
        };
        parts_within(place, sample)?;
    }
    Ok(())
}

// Whether a grid has so many samples.
pub(crate) fn has_length<K: Sample>(grid: &[K], count: usize) -> bool
    ensures { result ≡ (length (map K.Sample.parts grid.now) == count) }
{
    grid.len() == count
}

impl Panel {
    // Whether a grid has the panel's size.
    pub(crate) fn is_sized<K: Sample>(&self, grid: &[K]) -> bool
        ensures { result ≡ sized self.now (map K.Sample.parts grid.now) }
    {
        has_length(grid, self.size.count())
    }
}
