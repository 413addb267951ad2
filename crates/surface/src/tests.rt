// Worked lines, weights, roundings and readings, and the limits of each.
use crate::patch::{lines_around, nearest, patch_reading, tolerance, weights};

#[test]
fn worked_lines(rt: HostRuntime) {
    assert!(rt; lines_around(2, 32) == [1, 1, 2, 2]);
    assert!(rt; lines_around(5, 96) == [2, 3, 4, 5]);
    assert!(rt; lines_around(5, 159) == [3, 4, 5, 5]);
}

// Off the grid every place leads to a rim, and with no lines at all to line 1.
#[test]
fn lines_off_the_grid(rt: HostRuntime) {
    assert!(rt; lines_around(5, 0) == [1, 1, 1, 2]);
    assert!(rt; lines_around(5, usize::MAX) == [5, 5, 5, 5]);
    assert!(rt; lines_around(0, 100) == [1, 1, 1, 1]);
}

#[test]
fn worked_weights(rt: HostRuntime) {
    assert!(rt; weights(32) == [32_768, 131_072, 32_768, 0]);
    assert!(rt; weights(33) == [29_791, 130_883, 35_933, 1]);
    assert!(rt; weights(48) == [4_096, 94_208, 94_208, 4_096]);
    assert!(rt; weights(95) == [1, 35_933, 130_883, 29_791]);
}

// Half of F is 19,327,352,832.
#[test]
fn middles_round_up(rt: HostRuntime) {
    assert!(rt; nearest(19_327_352_832) == 1);
    assert!(rt; nearest(-19_327_352_832) == 0);
    assert!(rt; nearest(19_327_352_831) == 0);
    assert!(rt; nearest(-19_327_352_833) == -1);
}

#[test]
fn every_sum_rounds(rt: HostRuntime) {
    assert!(rt; nearest(i64::MAX) == 238_609_294);
    assert!(rt; nearest(i64::MIN) == -238_609_294);
}

// The control points 100, -20, -20, 4 of a grid of 2 by 2, around any place of it.
#[test]
fn worked_readings(rt: HostRuntime) {
    let rows = [
        [100, 100, -20, -20],
        [100, 100, -20, -20],
        [-20, -20, 4, 4],
        [-20, -20, 4, 4],
    ];
    assert!(rt; patch_reading(&rows, 32, 32) == Some(64));
    assert!(rt; patch_reading(&rows, 48, 32) == Some(32));
    assert!(rt; patch_reading(&rows, 48, 48) == Some(16));
}

// Rows are the first coordinate.
#[test]
fn rows_and_columns_differ(rt: HostRuntime) {
    let rows = [
        [0, 10, 40, 90],
        [1_000, 1_010, 1_040, 1_090],
        [2_000, 2_010, 2_040, 2_090],
        [3_000, 3_010, 3_040, 3_090],
    ];
    assert!(rt; patch_reading(&rows, 40, 35) == Some(1_265));
    assert!(rt; patch_reading(&rows, 35, 40) == Some(1_113));
}

fn with_one(point: i32) -> Option<i32> {
    patch_reading(&[[0; 4], [0, point, 0, 0], [0; 4], [0; 4]], 32, 32)
}

#[test]
fn reach(rt: HostRuntime) {
    assert!(rt; with_one(16_000_000) == Some(7_111_111));
    assert!(rt; with_one(-16_000_000) == Some(-7_111_111));
    assert!(rt; with_one(16_000_001) == None);
    assert!(rt; with_one(-16_000_001) == None);
    assert!(rt; with_one(i32::MIN) == None);
}

// The grades of elimination throughout, of a coarser solver among the first lines, and the greatest that solvers may have.
#[test]
fn tolerances(rt: HostRuntime) {
    assert!(rt; tolerance(3, 3) == 13);
    assert!(rt; tolerance(7, 3) == 25);
    assert!(rt; tolerance(3, 7) == 17);
    assert!(rt; tolerance(12, 12) == 49);
    assert!(rt; tolerance(0, 0) == 1);
}
