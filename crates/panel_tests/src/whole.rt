// A whole fit: every line by its solver as if called one by one, and refusals that change nothing.
use crate::coarse::Coarse;
use crate::kit::Kit;
use grid::kinds::Height;
use line::elimination::Elimination;
use line::solver::LineSolver;
use panel::record::Order;
use panel_fault::PanelFault;
use std::process::Abort;
use std::test::Fail;

const CORNER: [Height; 4] = [Height(4), Height(0), Height(0), Height(0)];

// A corner of 4, fitted by two solvers: its control points, and the tolerance at the first place.
fn corner<S: LineSolver, T: LineSolver>(
    order: Order,
    first: &S,
    second: &T,
) -> Result<([Height; 4], (Height, u32)), PanelFault> {
    let mut kit = Kit::made(2, 2, order, CORNER, Height(9))?;
    kit.fit_by(first, second)?;
    let reading = kit.read(32, 32)?;
    Ok((kit.controls, reading))
}

// Both solvers find the whole control points; the grades are 3 and 7.
fn corners(rt: &impl Abort, order: Order) {
    let points = [Height(100), Height(-20), Height(-20), Height(4)];
    let (fine, coarse) = (Elimination, Coarse);
    assert_eq!(rt; corner(order, &fine, &fine), Ok((points, (Height(64), 13))));
    assert_eq!(rt;
        corner(order, &fine, &coarse),
        Ok((points, (Height(64), 17)))
    );
    assert_eq!(rt;
        corner(order, &coarse, &fine),
        Ok((points, (Height(64), 25)))
    );
}

#[test]
fn corners_in_both_orders(rt: HostRuntime) {
    corners(&rt, Order::RowsFirst);
    corners(&rt, Order::ColumnsFirst);
}

const SIX: [Height; 6] = [
    Height(3),
    Height(-100_000),
    Height(20),
    Height(100_000),
    Height(5),
    Height(-7),
];

// A fit of two by three leaves what the line calls leave one by one.
fn line_by_line(rt: &impl Abort, order: Order) -> Result<(), Fail> {
    let one_by_one = Kit::fitted(2, 3, order, SIX, Height(9))?;
    let mut at_once = Kit::made(2, 3, order, SIX, Height(8))?;
    assert_eq!(rt; at_once.fit_by(&Elimination, &Elimination), Ok(()));
    assert_eq!(rt; at_once.halves, one_by_one.halves);
    assert_eq!(rt; at_once.controls, one_by_one.controls);
    assert_eq!(rt; at_once.read(50, 70), one_by_one.read(50, 70));
    Ok(())
}

#[test]
fn as_line_by_line(rt: HostRuntime) -> Result<(), Fail> {
    line_by_line(&rt, Order::RowsFirst)?;
    line_by_line(&rt, Order::ColumnsFirst)
}

// A sample that its host damaged is named, and nothing has run.
#[test]
fn damaged_sample(rt: HostRuntime) -> Result<(), Fail> {
    let mut kit = Kit::made(2, 3, Order::RowsFirst, SIX, Height(9))?;
    kit.samples[4] = Height(100_001);
    let beyond = PanelFault::PartBeyond {
        row: 2,
        column: 2,
        part: 1,
    };
    assert_eq!(rt; kit.fit_by(&Elimination, &Elimination), Err(beyond));
    assert_eq!(rt; kit.halves, [Height(9); 6]);
    assert_eq!(rt; kit.controls, [Height(9); 6]);
    assert_eq!(rt; kit.second(1), Err(PanelFault::FirstStale));
    Ok(())
}
