// Worked lines, the limits, and the refusals, each of which leaves the output as it was.
ghost use Rattle.std.specs.Prelude.{◌≤◌};

use crate::elimination::Elimination;
use crate::residual::residual_at;
use crate::solver::{LineSolver, SolveFault};
use std::process::Abort;

// The answer for a line of N numbers.
fn solved<const N: usize>(line: [i64; N]) -> Result<[i64; N], SolveFault> {
    let mut out = [9; N];
    Elimination.solve(&line, &mut out)?;
    Ok(out)
}

// The line is refused with this number, and an output line of three nines keeps them.
fn refused(rt: &impl Abort, line: &[i64], fault: SolveFault, number: u8) {
    let mut out = [9; 3];
    assert_eq!(rt; Elimination.solve(line, &mut out), Err(fault));
    assert_eq!(rt; fault.number(), number);
    assert_eq!(rt; out, [9; 3]);
}

// A line of n equal numbers at the limit is its own solution; nothing is written past it.
fn level(rt: &impl Abort, n: usize, height: i64)
    requires { (1 ≤ n) × (n ≤ 64) }
{
    let line = [height; 65];
    let mut out = [9; 65];
    assert_eq!(rt; Elimination.solve(&line[0..n], &mut out[0..n]), Ok(()));
    assert_eq!(rt; out[0], height);
    assert_eq!(rt; out[n - 1], height);
    assert_eq!(rt; out[n], 9);
}

#[test]
fn worked_lines(rt: HostRuntime) {
    assert_eq!(rt; solved([7, 7]), Ok([7, 7]));
    assert_eq!(rt; solved([4, 0]), Ok([5, -1]));
    assert_eq!(rt; solved([15, 0, 0]), Ok([19, -5, 1]));
    assert_eq!(rt; solved([0, 15, 0]), Ok([-5, 25, -5]));
}

// Its exact solution is (1/2, 7/2), so both residuals are 3: no lower grade holds.
#[test]
fn worst_residuals(rt: HostRuntime) {
    assert_eq!(rt; solved([1, 3]), Ok([1, 4]));
}

#[test]
fn lengths(rt: HostRuntime) {
    level(&rt, 2, 5_000_000);
    level(&rt, 3, -5_000_000);
    level(&rt, 63, 5_000_000);
    level(&rt, 64, -5_000_000);
    refused(&rt, &[6], SolveFault::Length, 1);
    refused(&rt, &[6; 65], SolveFault::Length, 1);
}

#[test]
fn outputs(rt: HostRuntime) {
    refused(&rt, &[6, 6], SolveFault::Output, 2);
    refused(&rt, &[6, 6, 6, 5_000_001], SolveFault::Output, 2);
}

#[test]
fn limits(rt: HostRuntime) {
    assert_eq!(rt;
        solved([5_000_000, -5_000_000, 5_000_000]),
        Ok([8_333_333, -11_666_667, 8_333_333])
    );
    refused(&rt, &[5_000_001, 0, 0], SolveFault::Beyond(1), 3);
    refused(&rt, &[0, 0, -5_000_001], SolveFault::Beyond(3), 3);
    refused(&rt, &[0, -5_000_001, 5_000_001], SolveFault::Beyond(2), 3);
}

#[test]
fn residuals(rt: HostRuntime) {
    assert_eq!(rt; residual_at(&[1, 4], &[1, 3], 1), Some(3));
    assert_eq!(rt; residual_at(&[1, 4], &[1, 3], 2), Some(3));
    assert_eq!(rt; residual_at(&[1, 4], &[1, 3], 0), None);
    assert_eq!(rt; residual_at(&[1, 4], &[1, 3], 3), None);
    assert_eq!(rt; residual_at(&[1, 4], &[1, 3, 5], 1), None);
    let high = i64::MAX;
    let low = i64::MIN;
    assert_eq!(rt;
        residual_at(&[high, high], &[low, low], 1),
        Some(110_680_464_442_257_309_690)
    );
}
