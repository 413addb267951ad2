// The laws of grids and readings, each on the contract of a function that does nothing but carry it.
ghost use Rattle.line.specs.Line.{sum_at};
ghost use Rattle.surface.specs.Laws.{OfGrids, SomeGrid, OneGrid, RowsThenColumn, ColumnsThenRow, ReadsNear, ReadsSample};

// Every grid of samples has exactly one control grid in fractions.
pub fn grids_have_one_surface()
    ensures some { OfGrids (SomeGrid sum_at) }
    ensures one { OfGrids (OneGrid sum_at) }
{}

// Control points fitted in two steps, in either order, are near every exact control grid.
pub fn fitted_points_are_near()
    ensures rows_first { OfGrids (RowsThenColumn sum_at) }
    ensures columns_first { OfGrids (ColumnsThenRow sum_at) }
{}

// A reading from control points that are near is near the surface, and at a grid place near the sample.
pub fn readings_are_near()
    ensures surface { ReadsNear }
    ensures sample { ReadsSample }
{}
