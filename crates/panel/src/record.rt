// What a panel is: its sizes, its line order, how often it was probed, and a mark for each line.
ghost use Rattle.std.specs.Prelude.{◌≡◌, ◌*◌, ◌<◌};
ghost use Rattle.grid.specs.Place.{index};
ghost use Rattle.panel.specs.Calls.{pick as chosen, first_lines, second_lines, grade_of, is_current, let_go};

use grid::size::{GridSize, Place};

// Which lines are fitted first: the rows, and then the columns, or the reverse.
#[derive(Clone, Copy, PartialEq, Eq, Debug)]
pub enum Order {
    RowsFirst,
    ColumnsFirst,
}

// What is known of a line: whether a solver ran it, of which grade, and whether all that the line rests on is still as it then was.
#[derive(Clone, Copy, PartialEq, Eq, Debug)]
pub enum Mark {
    Unrun,
    Stale(u8),
    Current(u8),
}

// The caller keeps the grids and lends them to each call; the panel keeps what is known of them. Its marks are as many as there may be lines,
// since there is no heap.
#[derive(Drop)]
pub struct Panel {
    pub(crate) size: GridSize,
    pub(crate) order: Order,
    pub(crate) probes: u32,
    pub(crate) first: [Mark; 64],
    pub(crate) second: [Mark; 64],
}

impl Mark {
    // The grade of the solver that last ran the line, 0 if none did.
    pub(crate) fn grade(self) -> u8
        ensures { result ≡ grade_of self }
    {
        match self {
            Mark::Unrun => 0,
            Mark::Stale(grade) | Mark::Current(grade) => grade,
        }
    }

    pub(crate) fn is_current(self) -> bool
        ensures { result ≡ is_current self }
    {
        matches!(self, Mark::Current(_))
    }

    // The line goes stale and keeps its grade.
    pub(crate) fn let_go(self) -> Mark
        ensures { result ≡ let_go self }
    {
        match self {
            Mark::Current(grade) => Mark::Stale(grade),
            other => other,
        }
    }
}

impl Order {
    // One thing or the other, as rows or columns come first.
    pub(crate) fn pick<T: Drop>(self, rows_first: T, columns_first: T) -> T
        ensures { result ≡ chosen self rows_first columns_first }
    {
        match self {
            Order::RowsFirst => rows_first,
            Order::ColumnsFirst => columns_first,
        }
    }
}

impl Panel {
    // How many first lines there are.
    pub(crate) fn first_lines(&self) -> u8
        ensures { result ≡ first_lines self.now }
    {
        self.order.pick(self.size.rows, self.size.columns)
    }

    // How many second lines there are.
    pub(crate) fn second_lines(&self) -> u8
        ensures { result ≡ second_lines self.now }
    {
        self.order.pick(self.size.columns, self.size.rows)
    }
}

// Where a place stands in a grid of that length. (`GridSize::index_of` is for any place and may answer none; past a call's checks there is one.)
pub(crate) fn index_of(length: usize, size: GridSize, place: Place) -> usize
    requires { index size.columns place.row place.column < length }
    ensures value { result ≡ index size.columns place.row place.column }
    ensures within { result < length }
{
    let columns = usize::from(size.columns);
    place.row.saturating_sub(1) * columns + place.column.saturating_sub(1)
}
