// One place of the surface: the lines around it, its weights, and the reading of its sixteen control points.
// Places are in 32nds of the way from one row or column to the next, with row 1 and column 1 at 32.
ghost use Rattle.std.specs.Prelude.{◌≡◌, ℕ, ◌+◌, ◌-◌, ◌*◌, ◌%◌, ◌^◌, ◌<◌, ◌≤◌, max, true, [], pos, ◌+ℤ◌, ◌-ℤ◌, ◌*ℤ◌, nat_le, slice_index, slice_index_or, unsigned_abs};
ghost use Rattle.line.specs.Line.{clamped};
ghost use Rattle.surface.specs.Surface.{weight, F, floored, rounded, tolerance_of};
ghost use Rattle.surface.specs.Products.{Low, products, products_of};
ghost use Rattle.surface.specs.Patch.{lines_around, weights_at, reach, all_below, point, within_reach, patch_reading};

// Half of the 36 * 2^30 that the sixteen products of weights add up to.
const HALF: i64 = 19_327_352_832;

// The greatest point, either way, that is read.
const REACH: u32 = 16_000_000;

// The line before the next one, of so many rows or columns; beyond a rim the rim's own.
fn line_before(count: usize, next: usize) -> usize
    ensures { result ≡ clamped count (next - 1) }
{
    next.saturating_sub(1).clamp(1, count.max(1))
}

// The four lines, of so many rows or columns, whose control points bear on a place.
pub fn lines_around(count: usize, x: usize) -> [usize; 4]
    ensures value { result ≡ lines_around count x }
    ensures on_line { (a : ℕ) → a < 4 → (1 ≤ slice_index result a) × (slice_index result a ≤ max 1 count) }
{
    let next = x / 32;
    [next, next + 1, next + 2, next + 3].map(|line| line_before(count, line))
}

// A cube, which fits for whatever is at most 32.
fn cube(t: usize) -> usize
    requires { t ≤ 32 }
    ensures value { result ≡ t ^ 3 }
    ensures low { result ≤ 32768 }
{
    t * t * t
}

// The weight of the point at the place or just before it.
fn weight_before(square: usize, cube: usize) -> usize
    requires { (192 * square ≤ 3 * cube + 131072) × (cube ≤ 32768) }
    ensures { result ≡ (3 * cube + 131072) - 192 * square }
{
    3 * cube + 131_072 - 192 * square
}

// The weight of the point just after the place.
fn weight_after(t: usize, square: usize, cube: usize) -> usize
    requires { (3 * cube ≤ 96 * square + 3072 * t + 32768) × ((square ≤ 1024) × (t ≤ 32)) }
    ensures { result ≡ (96 * square + 3072 * t + 32768) - 3 * cube }
{
    96 * square + 3072 * t + 32_768 - 3 * cube
}

// The weights of the four lines around a place, 6 * 32^3 in all.
pub fn weights(x: usize) -> [i64; 4]
    ensures value { result ≡ weights_at x }
    ensures low { Low 131072 result }
    ensures whole { weight 0 (x % 32) + weight 1 (x % 32) + weight 2 (x % 32) + weight 3 (x % 32) ≡ 196608 }
{
    let t = x % 32;
    let square = t * t;
    let cube_after = cube(t);
    let cube_before = cube(32 - t);
    [
        cube_before as i64,
        weight_before(square, cube_after) as i64,
        weight_after(t, square, cube_after) as i64,
        cube_after as i64,
    ]
}

// From halves, rounded down, to the nearest whole number: up from the middle.
fn nearest_to_halves(halves: i64) -> i64
    requires { unsigned_abs halves ≤ 500000000 }
    ensures { result ≡ floored (halves +ℤ pos 1) 2 }
{
    (halves + 1).div_euclid(2)
}

// A sum around a place as a reading, the nearest whole number. Counted in halves first, since twice the sum may not fit.
pub fn nearest(sum: i64) -> i32
    ensures value { result ≡ rounded sum }
    ensures near { 2 * unsigned_abs (pos F *ℤ result -ℤ sum) ≤ F }
{
    nearest_to_halves(sum.div_euclid(HALF)) as i32
}

// Whether a point is read.
fn within(point: i32) -> bool
    ensures { result ≡ nat_le (unsigned_abs point) reach }
{
    point.unsigned_abs() <= REACH
}

// Whether all four points of a row are.
fn row_within(row: &[i32; 4]) -> bool
    ensures { result ≡ all_below 4 (λ b. nat_le (unsigned_abs (slice_index_or row.now b (pos 0))) reach) }
{
    row.iter().all(|&point| within(point))
}

// A number times a weight; both are low enough that the product fits.
fn weighed(weight: i64, number: i64) -> i64
    requires { (unsigned_abs weight ≤ 131072) × (unsigned_abs number ≤ 8388608000000) }
    ensures value { result ≡ weight *ℤ number }
    ensures low { unsigned_abs result ≤ 1099511627776000000 }
{
    weight * number
}

// Four products of a weight, whose sum fits.
fn sum_of(a: i64, b: i64, c: i64, d: i64) -> i64
    requires left { (unsigned_abs a ≤ 1099511627776000000) × (unsigned_abs b ≤ 1099511627776000000) }
    requires right { (unsigned_abs c ≤ 1099511627776000000) × (unsigned_abs d ≤ 1099511627776000000) }
    ensures { result ≡ ((a +ℤ b) +ℤ c) +ℤ d }
{
    a + b + c + d
}

// A row in 64 bits.
fn widened(row: &[i32; 4]) -> [i64; 4]
    ensures { result ≡ row.now }
{
    row.map(i64::from)
}

// The weights of four lines.
#[derive(Clone, Copy)]
struct LineWeights {
    values: [i64; 4],
    ghost low: { Low 131072 values },
}

impl LineWeights {
    // Those of the lines around a place.
    fn at(x: usize) -> LineWeights
        ensures { result.values ≡ weights_at x }
    {
        LineWeights { values: weights(x) }
    }

    // Four numbers, each times its weight, written out: a sum of signed numbers by an iterator has no bound to prove that it fits.
    fn sum(&self, numbers: &[i64; 4]) -> i64
        requires { Low 8388608000000 numbers.now }
        ensures { result ≡ products self.now.values numbers.now }
    {
        sum_of(
            weighed(self.values[0], numbers[0]),
            weighed(self.values[1], numbers[1]),
            weighed(self.values[2], numbers[2]),
            weighed(self.values[3], numbers[3]),
        )
    }

    // The four points of a row, each times its weight.
    fn sum_of_row(&self, row: &[i32; 4]) -> i64
        requires { Low reach row.now }
        ensures value { result ≡ products self.now.values row.now }
        ensures low { unsigned_abs result ≤ 8388608000000 }
    {
        self.sum(&widened(row))
    }

    // All sixteen points, each times its two weights: first within each row, then over the rows. Written out: as a closure, what is asked of
    // a row would need clauses of its own.
    fn sum_of_rows(&self, across: &LineWeights, rows: &[[i32; 4]; 4]) -> i64
        requires { within_reach (point rows.now) ≡ true }
        ensures { result ≡ products_of self.now.values (λ a. products across.now.values (slice_index_or rows.now a [])) }
    {
        self.sum(&[
            across.sum_of_row(&rows[0]),
            across.sum_of_row(&rows[1]),
            across.sum_of_row(&rows[2]),
            across.sum_of_row(&rows[3]),
        ])
    }
}

// The same with the weights of a place: those of x for the rows, those of y within each row.
fn sum_at(rows: &[[i32; 4]; 4], x: usize, y: usize) -> i64
    requires { within_reach (point rows.now) ≡ true }
    ensures { result ≡ products_of (weights_at x) (λ a. products (weights_at y) (slice_index_or rows.now a [])) }
{
    LineWeights::at(x).sum_of_rows(&LineWeights::at(y), rows)
}

// Whether all sixteen points are read.
fn rows_within(rows: &[[i32; 4]; 4]) -> bool
    ensures { result ≡ within_reach (point rows.now) }
{
    rows.iter().all(row_within)
}

// The reading at a place of its sixteen points, four rows of four; none if one of them lies beyond 16,000,000 either way.
pub fn patch_reading(rows: &[[i32; 4]; 4], x: usize, y: usize) -> Option<i32>
    ensures { result ≡ patch_reading rows.now x y }
{
    if rows_within(rows) {
        Some(nearest(sum_at(rows, x, y)))
    } else {
        None
    }
}

// The tolerance of a reading, by the greatest grade of all first lines and the greatest of the second lines around it.
pub fn tolerance(first: u8, second: u8) -> u32
    ensures { result ≡ tolerance_of first second }
{
    u32::from(second) + 3 * u32::from(first) + 1
}
