// Grids that their host has damaged: what no solver takes or no reading reaches is refused, with its place, and nothing is stored.
use crate::kit::{Kit, point};
use grid::kinds::{Height, Point};
use line::solver::SolveFault;
use panel::record::Order;
use panel_fault::PanelFault;
use std::process::Abort;
use std::test::Fail;

fn corner(order: Order) -> Result<Kit<Height, 4>, PanelFault> {
    Kit::fitted(2, 2, order, [Height(5); 4], Height(9))
}

fn refused(line: usize, part: usize, place: usize) -> Result<(), PanelFault> {
    Err(PanelFault::Solver {
        line,
        part,
        fault: SolveFault::Beyond(place),
    })
}

// 16 times 312,500 is the 5,000,000 that a solver takes.
fn sample_of(
    rt: &impl Abort,
    order: Order,
    height: i32,
    line: i32,
) -> Result<Result<(), PanelFault>, Fail> {
    let mut kit = corner(order)?;
    kit.samples[1] = Height(height);
    let answer = kit.first(line);
    if answer.is_err() {
        assert_eq!(rt; kit.halves, [Height(80); 4]);
        assert_eq!(rt; kit.read(32, 32), Ok((Height(80), 13)));
    }
    Ok(answer)
}

// The sample in row 1 and column 2 is the second of the first row and the first of the second column.
#[test]
fn a_sample(rt: HostRuntime) -> Result<(), Fail> {
    assert_eq!(rt; sample_of(&rt, Order::RowsFirst, 312_500, 1)?, Ok(()));
    assert_eq!(rt; sample_of(&rt, Order::RowsFirst, -312_500, 1)?, Ok(()));
    assert_eq!(rt;
        sample_of(&rt, Order::RowsFirst, 312_501, 1)?,
        refused(1, 1, 2)
    );
    assert_eq!(rt;
        sample_of(&rt, Order::RowsFirst, -312_501, 1)?,
        refused(1, 1, 2)
    );
    assert_eq!(rt;
        sample_of(&rt, Order::RowsFirst, i32::MIN, 1)?,
        refused(1, 1, 2)
    );
    assert_eq!(rt; sample_of(&rt, Order::RowsFirst, 312_501, 2)?, Ok(()));
    assert_eq!(rt; sample_of(&rt, Order::ColumnsFirst, 312_501, 1)?, Ok(()));
    assert_eq!(rt;
        sample_of(&rt, Order::ColumnsFirst, 312_501, 2)?,
        refused(2, 1, 1)
    );
    Ok(())
}

// The half point in row 2 and column 1.
fn half_of(
    rt: &impl Abort,
    order: Order,
    half: i32,
    line: i32,
) -> Result<Result<(), PanelFault>, Fail> {
    let mut kit = corner(order)?;
    kit.halves[2] = Height(half);
    let answer = kit.second(line);
    if answer.is_err() {
        assert_eq!(rt; kit.controls, [Height(80); 4]);
        assert_eq!(rt; kit.read(32, 32), Ok((Height(80), 13)));
    }
    Ok(answer)
}

#[test]
fn a_half_point(rt: HostRuntime) -> Result<(), Fail> {
    assert_eq!(rt; half_of(&rt, Order::RowsFirst, 5_000_000, 1)?, Ok(()));
    assert_eq!(rt; half_of(&rt, Order::RowsFirst, -5_000_000, 1)?, Ok(()));
    assert_eq!(rt;
        half_of(&rt, Order::RowsFirst, 5_000_001, 1)?,
        refused(1, 1, 2)
    );
    assert_eq!(rt;
        half_of(&rt, Order::RowsFirst, -5_000_001, 1)?,
        refused(1, 1, 2)
    );
    assert_eq!(rt;
        half_of(&rt, Order::RowsFirst, i32::MAX, 1)?,
        refused(1, 1, 2)
    );
    assert_eq!(rt; half_of(&rt, Order::RowsFirst, 5_000_001, 2)?, Ok(()));
    assert_eq!(rt; half_of(&rt, Order::ColumnsFirst, 5_000_001, 1)?, Ok(()));
    assert_eq!(rt;
        half_of(&rt, Order::ColumnsFirst, 5_000_001, 2)?,
        refused(2, 1, 1)
    );
    Ok(())
}

// Two by three points, the last two points of row 1 as given; a refusal stores nothing of any part.
fn points_of(rt: &impl Abort, second: Point, third: Point) -> Result<Result<(), PanelFault>, Fail> {
    let blank = point(7, 8, 9);
    let mut kit = Kit::made(2, 3, Order::RowsFirst, [point(1, 2, 3); 6], blank)?;
    kit.samples[1] = second;
    kit.samples[2] = third;
    let answer = kit.first(1);
    if answer.is_err() {
        assert_eq!(rt; kit.halves, [blank; 6]);
    }
    Ok(answer)
}

// The first part that the solver refuses is named, and then its first place.
#[test]
fn parts_of_a_sample(rt: HostRuntime) -> Result<(), Fail> {
    let good = point(312_500, -312_500, 312_500);
    assert_eq!(rt; points_of(&rt, good, good)?, Ok(()));
    assert_eq!(rt;
        points_of(&rt, good, point(0, 0, 312_501))?,
        refused(1, 3, 3)
    );
    assert_eq!(rt;
        points_of(&rt, point(0, 0, -312_501), good)?,
        refused(1, 3, 2)
    );
    assert_eq!(rt;
        points_of(&rt, point(0, 0, 312_501), point(0, -312_501, 0))?,
        refused(1, 2, 3)
    );
    assert_eq!(rt;
        points_of(&rt, point(0, 312_501, 0), point(312_501, 312_501, 0))?,
        refused(1, 1, 3)
    );
    Ok(())
}

// The same with half points of column 2: rows 1 and 2 stand at the places 1 and 2.
#[test]
fn parts_of_a_half_point(rt: HostRuntime) -> Result<(), Fail> {
    let blank = point(7, 8, 9);
    let mut kit = Kit::made(2, 3, Order::RowsFirst, [point(1, 2, 3); 6], blank)?;
    kit.firsts()?;
    kit.halves[4].up = 5_000_001;
    assert_eq!(rt; kit.second(2), refused(2, 3, 2));
    kit.halves[1].along = -5_000_001;
    assert_eq!(rt; kit.second(2), refused(2, 2, 1));
    assert_eq!(rt; kit.controls, [blank; 6]);
    assert_eq!(rt; kit.second(1), Ok(()));
    Ok(())
}

// Two rows of eight, with the control point in row 2 and column 8 as given.
fn far_control(control: i32) -> Result<Kit<Height, 16>, PanelFault> {
    let mut kit = Kit::fitted(2, 8, Order::RowsFirst, [Height(5); 16], Height(9))?;
    kit.controls[15] = Height(control);
    Ok(kit)
}

// It counts from column 6 on, even where it has no weight, and not before.
fn far_beyond(rt: &impl Abort, control: i32) -> Result<(), Fail> {
    let kit = far_control(control)?;
    assert_eq!(rt; kit.read(32, 32), Ok((Height(80), 13)));
    assert_eq!(rt; kit.read(63, 191), Ok((Height(80), 13)));
    assert_eq!(rt; kit.read(32, 192), Err(PanelFault::ControlBeyond));
    assert_eq!(rt; kit.read(63, 255), Err(PanelFault::ControlBeyond));
    Ok(())
}

#[test]
fn a_control_point_beyond_reach(rt: HostRuntime) -> Result<(), Fail> {
    far_beyond(&rt, 16_000_001)?;
    far_beyond(&rt, -16_000_001)?;
    far_beyond(&rt, i32::MIN)
}

// The fourth column around (32, 192) has no weight. At (32, 224) row 2 and column 8 have 1 / 36, which is 444,442.2 and -444,446.7 more than 80.
#[test]
fn a_control_point_within_reach(rt: HostRuntime) -> Result<(), Fail> {
    let above = far_control(16_000_000)?;
    assert_eq!(rt; above.read(32, 192), Ok((Height(80), 13)));
    assert_eq!(rt; above.read(32, 224), Ok((Height(444_522), 13)));
    let below = far_control(-16_000_000)?;
    assert_eq!(rt; below.read(32, 192), Ok((Height(80), 13)));
    assert_eq!(rt; below.read(32, 224), Ok((Height(-444_367), 13)));
    Ok(())
}

// Level control points are read as they are.
fn level(rt: &impl Abort, control: i32) -> Result<(), Fail> {
    let mut kit = corner(Order::RowsFirst)?;
    kit.controls = [Height(control); 4];
    assert_eq!(rt; kit.read(32, 32), Ok((Height(control), 13)));
    assert_eq!(rt; kit.read(45, 63), Ok((Height(control), 13)));
    Ok(())
}

#[test]
fn level_control_points_at_the_limit(rt: HostRuntime) -> Result<(), Fail> {
    level(&rt, 16_000_000)?;
    level(&rt, -16_000_000)
}

// A part beyond reach refuses the whole point.
#[test]
fn parts_of_a_control_point(rt: HostRuntime) -> Result<(), Fail> {
    let samples = [point(1, 2, 3); 6];
    let mut kit = Kit::fitted(2, 3, Order::RowsFirst, samples, point(0, 0, 0))?;
    assert_eq!(rt; kit.read(32, 32), Ok((point(16, 32, 48), 13)));
    kit.controls[0].up = 16_000_001;
    assert_eq!(rt; kit.read(32, 32), Err(PanelFault::ControlBeyond));
    kit.controls[0] = point(16, -16_000_001, 48);
    assert_eq!(rt; kit.read(32, 32), Err(PanelFault::ControlBeyond));
    kit.controls[0] = point(16, 32, 48);
    assert_eq!(rt; kit.read(32, 32), Ok((point(16, 32, 48), 13)));
    Ok(())
}
