// Panels: samples probed on a grid, the lines fitted to them by any solver, and readings of the fitted surface with their tolerance.
// Grids, lines and solvers go one by one, as a caller lends them: each call borrows others, and in other ways, so no struct holds them.
#![tactic(auto)]

mod checks;
mod fit;
mod lane;
mod lines;
mod make;
mod marks;
mod probe;
mod read;
pub mod record;
mod source;
mod view;
