// The two by two heights 4, 0, 0, 0: a line 4, 0 has the solution 5, -1, so the half points are 80, -16, 0, 0 in fine units, rows first,
// and the control points 100, -20, -20, 4 in either order.
ghost use Rattle.std.specs.Prelude.{◌≤◌, unsigned_abs};

use crate::kit::Kit;
use grid::kinds::Height;
use panel::record::Order;
use panel_fault::PanelFault;
use std::process::Abort;
use std::test::Fail;

fn heights(a: i32, b: i32, c: i32, d: i32) -> [Height; 4] {
    [Height(a), Height(b), Height(c), Height(d)]
}

fn corner(order: Order, height: i32) -> Result<Kit<Height, 4>, PanelFault> {
    Kit::fitted(2, 2, order, heights(height, 0, 0, 0), Height(9))
}

#[test]
fn grids_rows_first(rt: HostRuntime) -> Result<(), Fail> {
    let kit = corner(Order::RowsFirst, 4)?;
    assert_eq!(rt; kit.samples, heights(4, 0, 0, 0));
    assert_eq!(rt; kit.halves, heights(80, -16, 0, 0));
    assert_eq!(rt; kit.controls, heights(100, -20, -20, 4));
    Ok(())
}

#[test]
fn grids_columns_first(rt: HostRuntime) -> Result<(), Fail> {
    let kit = corner(Order::ColumnsFirst, 4)?;
    assert_eq!(rt; kit.samples, heights(4, 0, 0, 0));
    assert_eq!(rt; kit.halves, heights(80, 0, -16, 0));
    assert_eq!(rt; kit.controls, heights(100, -20, -20, 4));
    Ok(())
}

// The readings at the corner, halfway along each side, and in the middle; at (63, 63) the surface is 0.04 of the sign of the height.
fn reads(rt: &impl Abort, order: Order, sign: i32) -> Result<(), Fail>
    requires { unsigned_abs sign ≤ 1 }
{
    let kit = corner(order, 4 * sign)?;
    assert_eq!(rt; kit.read(32, 32), Ok((Height(64 * sign), 13)));
    assert_eq!(rt; kit.read(48, 32), Ok((Height(32 * sign), 13)));
    assert_eq!(rt; kit.read(32, 48), Ok((Height(32 * sign), 13)));
    assert_eq!(rt; kit.read(48, 48), Ok((Height(16 * sign), 13)));
    assert_eq!(rt; kit.read(63, 63), Ok((Height(0), 13)));
    Ok(())
}

#[test]
fn readings(rt: HostRuntime) -> Result<(), Fail> {
    reads(&rt, Order::RowsFirst, 1)?;
    reads(&rt, Order::ColumnsFirst, 1)
}

#[test]
fn readings_of_a_negative_height(rt: HostRuntime) -> Result<(), Fail> {
    reads(&rt, Order::RowsFirst, -1)?;
    reads(&rt, Order::ColumnsFirst, -1)
}

// At (32, 32) the surface is 25, 5, 5 and 1 of the four control points over 36.
fn rounds(rt: &impl Abort, controls: [Height; 4], height: i32) -> Result<(), Fail> {
    let mut kit = corner(Order::RowsFirst, 0)?;
    kit.controls = controls;
    assert_eq!(rt; kit.read(32, 32), Ok((Height(height), 13)));
    Ok(())
}

// 18 / 36 and 54 / 36, and one less in 36, each with both signs.
#[test]
fn halves_round_upward(rt: HostRuntime) -> Result<(), Fail> {
    rounds(&rt, heights(0, 3, 0, 3), 1)?;
    rounds(&rt, heights(0, 3, 0, 2), 0)?;
    rounds(&rt, heights(0, -3, 0, -3), 0)?;
    rounds(&rt, heights(0, -3, 0, -4), -1)?;
    rounds(&rt, heights(2, 0, 0, 4), 2)?;
    rounds(&rt, heights(2, 0, 0, 3), 1)?;
    rounds(&rt, heights(-2, 0, 0, -4), -1)?;
    rounds(&rt, heights(-2, 0, 0, -5), -2)
}

// Rows 15, 30, -45 and 60, 0, -15. A line 15, 0, 0 has the solution 19, -5, 1 and a line 0, 15, 0 has -5, 25, -5, so these are whole.
fn uneven() -> [Height; 6] {
    [
        Height(15),
        Height(30),
        Height(-45),
        Height(60),
        Height(0),
        Height(-15),
    ]
}

#[test]
fn uneven_heights_rows_first(rt: HostRuntime) -> Result<(), Fail> {
    let kit = Kit::fitted(2, 3, Order::RowsFirst, uneven(), Height(9))?;
    assert_eq!(rt;
        kit.halves,
        [
            Height(96),
            Height(960),
            Height(-1056),
            Height(1200),
            Height(-240),
            Height(-240),
        ]
    );
    assert_eq!(rt;
        kit.controls,
        [
            Height(-180),
            Height(1260),
            Height(-1260),
            Height(1476),
            Height(-540),
            Height(-36),
        ]
    );
    Ok(())
}

#[test]
fn uneven_heights_columns_first(rt: HostRuntime) -> Result<(), Fail> {
    let kit = Kit::fitted(2, 3, Order::ColumnsFirst, uneven(), Height(9))?;
    assert_eq!(rt;
        kit.halves,
        [
            Height(60),
            Height(600),
            Height(-840),
            Height(1140),
            Height(-120),
            Height(-120),
        ]
    );
    assert_eq!(rt;
        kit.controls,
        [
            Height(-180),
            Height(1260),
            Height(-1260),
            Height(1476),
            Height(-540),
            Height(-36),
        ]
    );
    Ok(())
}

// In exact fractions 240, 480, 230769 / 512, -138 and -16831107327 / 67108864.
fn reads_uneven(rt: &impl Abort, order: Order) -> Result<(), Fail> {
    let kit = Kit::fitted(2, 3, order, uneven(), Height(9))?;
    assert_eq!(rt; kit.read(32, 32), Ok((Height(240), 13)));
    assert_eq!(rt; kit.read(32, 64), Ok((Height(480), 13)));
    assert_eq!(rt; kit.read(40, 40), Ok((Height(451), 13)));
    assert_eq!(rt; kit.read(48, 80), Ok((Height(-138), 13)));
    assert_eq!(rt; kit.read(63, 95), Ok((Height(-251), 13)));
    Ok(())
}

#[test]
fn readings_of_uneven_heights(rt: HostRuntime) -> Result<(), Fail> {
    reads_uneven(&rt, Order::RowsFirst)?;
    reads_uneven(&rt, Order::ColumnsFirst)
}
