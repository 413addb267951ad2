// A two by three panel of points: each part is fitted and read as a panel of heights is, and no part mixes with another.
use crate::kit::{Kit, point};
use grid::kinds::Point;
use panel::record::Order;
use std::test::Fail;

// 15 at row 1 and column 1 across, at row 1 and column 2 along, at row 2 and column 3 up; all else 0.
fn peaks() -> [Point; 6] {
    [
        point(15, 0, 0),
        point(0, 15, 0),
        point(0, 0, 0),
        point(0, 0, 0),
        point(0, 0, 0),
        point(0, 0, 15),
    ]
}

// A line 15, 0, 0 has the solution 19, -5, 1, a line 0, 15, 0 has -5, 25, -5, and a line 4, 0 has 5, -1.
fn controls() -> [Point; 6] {
    [
        point(380, -100, -4),
        point(-100, 500, 20),
        point(20, -100, -76),
        point(-76, 20, 20),
        point(20, -100, -100),
        point(-4, 20, 380),
    ]
}

#[test]
fn control_points_rows_first(rt: HostRuntime) -> Result<(), Fail> {
    let kit = Kit::fitted(2, 3, Order::RowsFirst, peaks(), point(7, 8, 9))?;
    assert_eq!(rt; kit.controls, controls());
    Ok(())
}

#[test]
fn control_points_columns_first(rt: HostRuntime) -> Result<(), Fail> {
    let kit = Kit::fitted(2, 3, Order::ColumnsFirst, peaks(), point(7, 8, 9))?;
    assert_eq!(rt; kit.controls, controls());
    Ok(())
}

// One first line: 16 times the solutions of its row, and the other row as it was.
#[test]
fn half_points_of_one_row(rt: HostRuntime) -> Result<(), Fail> {
    let blank = point(7, 8, 9);
    let mut kit = Kit::made(2, 3, Order::RowsFirst, peaks(), blank)?;
    kit.first(1)?;
    let first = point(304, -80, 0);
    let second = point(-80, 400, 0);
    let third = point(16, -80, 0);
    assert_eq!(rt; kit.halves, [first, second, third, blank, blank, blank]);
    Ok(())
}

// In exact fractions, part by part; at (63, 95) -0.04, 0.19 and 228.17.
#[test]
fn readings(rt: HostRuntime) -> Result<(), Fail> {
    let kit = Kit::fitted(2, 3, Order::RowsFirst, peaks(), point(7, 8, 9))?;
    assert_eq!(rt; kit.read(32, 32), Ok((point(240, 0, 0), 13)));
    assert_eq!(rt; kit.read(32, 64), Ok((point(0, 240, 0), 13)));
    assert_eq!(rt; kit.read(48, 80), Ok((point(-12, 75, 57), 13)));
    assert_eq!(rt; kit.read(63, 95), Ok((point(0, 0, 228), 13)));
    Ok(())
}
