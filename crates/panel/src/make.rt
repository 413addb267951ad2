// Making a panel.
ghost use Rattle.std.specs.Prelude.{◌≡◌, map};
ghost use Rattle.panel.specs.Calls.{make_answer, make_result};
ghost use Rattle.panel.specs.Runs.{Begins, HasOneSurface};

use crate::checks::{grid_within, has_length, is_between};
use crate::marks::no_marks;
use crate::record::{Order, Panel};
use grid::checks::check;
use grid::sample::Sample;
use grid::size::GridSize;
use panel_fault::PanelFault;

// The checks of make, in their order.
pub(crate) fn may_make<K: Sample>(
    rows: i32,
    columns: i32,
    samples: &[K],
    halves: &[K],
    controls: &[K],
) -> Result<(), PanelFault>
    ensures { result ≡ make_answer rows columns (map K.Sample.parts samples.now) (map K.Sample.parts halves.now) (map K.Sample.parts controls.now) }
{
    check(is_between(rows, 2, 64), PanelFault::Size)?;
    check(is_between(columns, 2, 64), PanelFault::Size)?;
    let count = rows as usize * columns as usize;
    check(has_length(samples, count), PanelFault::GridLength)?;
    check(has_length(halves, count), PanelFault::GridLength)?;
    check(has_length(controls, count), PanelFault::GridLength)?;
    grid_within(samples, columns as usize)
}

// The panel that passes the checks.
fn made<K: Sample>(
    rows: i32,
    columns: i32,
    order: Order,
    samples: &[K],
    halves: &[K],
    controls: &[K],
) -> Result<Panel, PanelFault>
    ensures { result ≡ make_result rows columns order (map K.Sample.parts samples.now) (map K.Sample.parts halves.now) (map K.Sample.parts controls.now) }
{
    may_make(rows, columns, samples, halves, controls)?;
    Ok(Panel {
        size: GridSize {
            rows: rows as u8,
            columns: columns as u8,
        },
        order,
        probes: 0,
        first: no_marks(),
        second: no_marks(),
    })
}

impl Panel {
    // Makes a panel over the caller's three grids, whatever half points and control points then hold. No line is current.
    pub fn make<K: Sample>(
        rows: i32,
        columns: i32,
        order: Order,
        samples: &[K],
        halves: &[K],
        controls: &[K],
    ) -> Result<Panel, PanelFault>
        ensures answer { result ≡ make_result rows columns order (map K.Sample.parts samples.now) (map K.Sample.parts halves.now) (map K.Sample.parts controls.now) }
        ensures surface { HasOneSurface K.Sample.PARTS (map K.Sample.parts samples.now) result }
        ensures reached { Begins K.Sample.PARTS (map K.Sample.parts samples.now) (map K.Sample.parts halves.now) (map K.Sample.parts controls.now) result }
    {
        made(rows, columns, order, samples, halves, controls)
    }
}
