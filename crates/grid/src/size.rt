// The size of a grid, and its places: stored row by row, rows and columns counted from 1.
ghost use Rattle.std.specs.Prelude.{◌≡◌, ◌*◌, ◌<◌, true, Some, None, MatchOption};
ghost use Rattle.grid.specs.Place.{index, on_grid, index_on, place_at, place_on};

// How many rows and columns a grid has.
#[derive(Clone, Copy, PartialEq, Eq, Debug)]
pub struct GridSize {
    pub rows: u8,
    pub columns: u8,
}

// A row and a column, each counted from 1.
#[derive(Clone, Copy, PartialEq, Eq, Debug)]
pub struct Place {
    pub row: usize,
    pub column: usize,
}

impl GridSize {
    // How many places the grid has.
    pub fn count(self) -> usize
        ensures { result ≡ self.rows * self.columns }
    {
        usize::from(self.rows) * usize::from(self.columns)
    }

    // Whether the grid has the place.
    fn has(self, place: Place) -> bool
        ensures { result ≡ on_grid self place }
    {
        (1..=usize::from(self.rows)).contains(&place.row)
            && (1..=usize::from(self.columns)).contains(&place.column)
    }

    // Where a row and a column stand that the grid has.
    fn index(self, place: Place) -> usize
        requires { on_grid self place ≡ true }
        ensures { result ≡ index self.columns place.row place.column }
    {
        (place.row - 1) * usize::from(self.columns) + (place.column - 1)
    }

    // The index of a place, counted from 0: the place that stands there is this one.
    pub fn index_of(self, place: Place) -> Option<usize>
        ensures value { result ≡ index_on self place }
        ensures back { MatchOption result (index_on self place ≡ None) (λ k. place_on self k ≡ Some place) }
    {
        if self.has(place) {
            Some(self.index(place))
        } else {
            None
        }
    }

    // The place at an index that the grid has.
    fn place(self, index: usize) -> Place
        requires { index < self.rows * self.columns }
        ensures { result ≡ place_at self index }
    {
        let columns = usize::from(self.columns);
        Place {
            row: index / columns + 1,
            column: index % columns + 1,
        }
    }

    // The place at an index counted from 0: the index of that place is this one.
    pub fn place_of(self, index: usize) -> Option<Place>
        ensures value { result ≡ place_on self index }
        ensures back { MatchOption result (place_on self index ≡ None) (λ p. index_on self p ≡ Some index) }
    {
        if index < self.count() {
            Some(self.place(index))
        } else {
            None
        }
    }
}
