// Which lines are current: after make none, after a probe all first lines but the one through the place and no second line, after a first
// line no second line.
use crate::kit::{Kit, number};
use grid::kinds::Height;
use panel::record::Order;
use panel_fault::PanelFault;
use std::process::Abort;
use std::test::Fail;

// Level heights 5, so that every fitted control point and every reading is 80.
fn wide() -> Result<Kit<Height, 16>, PanelFault> {
    Kit::made(2, 8, Order::RowsFirst, [Height(5); 16], Height(0))
}

fn high() -> Result<Kit<Height, 16>, PanelFault> {
    Kit::made(8, 2, Order::ColumnsFirst, [Height(5); 16], Height(0))
}

fn square(order: Order) -> Result<Kit<Height, 9>, PanelFault> {
    Kit::made(3, 3, order, [Height(5); 9], Height(0))
}

#[test]
fn none_after_make(rt: HostRuntime) -> Result<(), Fail> {
    let mut kit = square(Order::RowsFirst)?;
    for line in 1..=3 {
        assert_eq!(rt; kit.second(line), Err(PanelFault::FirstStale));
    }
    let places: [(i32, i32); 4] = [(32, 32), (95, 32), (32, 95), (95, 95)];
    for (x, y) in places {
        assert_eq!(rt; kit.read(x, y), Err(PanelFault::SecondStale));
    }
    assert_eq!(rt; kit.controls, [Height(0); 9]);
    Ok(())
}

// A second line is run only when the last first line has been.
#[test]
fn every_first_line_is_needed(rt: HostRuntime) -> Result<(), Fail> {
    let mut kit = square(Order::ColumnsFirst)?;
    assert_eq!(rt; kit.first(3), Ok(()));
    assert_eq!(rt; kit.second(3), Err(PanelFault::FirstStale));
    assert_eq!(rt; kit.first(1), Ok(()));
    assert_eq!(rt; kit.second(1), Err(PanelFault::FirstStale));
    assert_eq!(rt; kit.first(1), Ok(()));
    assert_eq!(rt; kit.second(2), Err(PanelFault::FirstStale));
    assert_eq!(rt; kit.first(2), Ok(()));
    assert_eq!(rt; kit.second(2), Ok(()));
    Ok(())
}

// After a probe at row 2 and column 3 the other two first lines do not serve, and the one through the place does.
fn probed(rt: &impl Abort, order: Order, through: i32, others: [i32; 2]) -> Result<(), Fail> {
    let mut kit = square(order)?;
    kit.firsts()?;
    kit.seconds()?;
    assert_eq!(rt; number(kit.read(32, 32)), 0);
    assert_eq!(rt; kit.probe(2, 3, Height(5)), Ok(()));
    assert_eq!(rt; kit.read(32, 32), Err(PanelFault::SecondStale));
    assert_eq!(rt; kit.read(95, 95), Err(PanelFault::SecondStale));
    assert_eq!(rt; kit.second(1), Err(PanelFault::FirstStale));
    kit.first(others[0])?;
    assert_eq!(rt; kit.second(1), Err(PanelFault::FirstStale));
    kit.first(others[1])?;
    assert_eq!(rt; kit.second(1), Err(PanelFault::FirstStale));
    kit.first(through)?;
    assert_eq!(rt; kit.second(1), Ok(()));
    Ok(())
}

#[test]
fn a_probe_lets_one_first_line_go(rt: HostRuntime) -> Result<(), Fail> {
    probed(&rt, Order::RowsFirst, 2, [1, 3])?;
    probed(&rt, Order::ColumnsFirst, 3, [1, 2])
}

// The one line alone is enough, and then each needed second line.
fn probed_once(rt: &impl Abort, order: Order, through: i32) -> Result<(), Fail> {
    let mut kit = square(order)?;
    kit.firsts()?;
    kit.seconds()?;
    kit.probe(2, 3, Height(5))?;
    kit.first(through)?;
    kit.second(1)?;
    assert_eq!(rt; kit.read(32, 32), Err(PanelFault::SecondStale));
    kit.second(3)?;
    assert_eq!(rt; kit.read(32, 32), Err(PanelFault::SecondStale));
    kit.second(2)?;
    assert_eq!(rt; kit.read(32, 32), Ok((Height(80), 13)));
    Ok(())
}

#[test]
fn a_probe_lets_every_second_line_go(rt: HostRuntime) -> Result<(), Fail> {
    probed_once(&rt, Order::RowsFirst, 2)?;
    probed_once(&rt, Order::ColumnsFirst, 3)
}

fn first_again(rt: &impl Abort, order: Order) -> Result<(), Fail> {
    let mut kit = square(order)?;
    kit.firsts()?;
    kit.seconds()?;
    assert_eq!(rt; kit.read(95, 95), Ok((Height(80), 13)));
    kit.first(1)?;
    assert_eq!(rt; kit.read(95, 95), Err(PanelFault::SecondStale));
    kit.second(3)?;
    assert_eq!(rt; kit.read(95, 95), Err(PanelFault::SecondStale));
    kit.second(2)?;
    assert_eq!(rt; kit.read(95, 95), Err(PanelFault::SecondStale));
    kit.second(1)?;
    assert_eq!(rt; kit.read(95, 95), Ok((Height(80), 13)));
    Ok(())
}

#[test]
fn a_first_line_lets_every_second_line_go(rt: HostRuntime) -> Result<(), Fail> {
    first_again(&rt, Order::RowsFirst)?;
    first_again(&rt, Order::ColumnsFirst)
}

// A second line run again leaves the others current, and so does every refused call.
#[test]
fn what_lets_no_line_go(rt: HostRuntime) -> Result<(), Fail> {
    let mut kit = square(Order::RowsFirst)?;
    kit.firsts()?;
    kit.seconds()?;
    kit.second(2)?;
    assert_eq!(rt; number(kit.probe(4, 1, Height(5))), 21);
    assert_eq!(rt; number(kit.probe(1, 1, Height(100_001))), 24);
    assert_eq!(rt; number(kit.first(4)), 22);
    assert_eq!(rt; number(kit.second(0)), 22);
    assert_eq!(rt; number(kit.read(96, 32)), 23);
    assert_eq!(rt; kit.read(32, 32), Ok((Height(80), 13)));
    assert_eq!(rt; kit.read(95, 95), Ok((Height(80), 13)));
    Ok(())
}

// Near the first of eight lines the first three are needed, even where the third has no weight; one line on, the first four.
#[test]
fn only_the_columns_around(rt: HostRuntime) -> Result<(), Fail> {
    let mut kit = wide()?;
    kit.firsts()?;
    kit.second(1)?;
    kit.second(2)?;
    assert_eq!(rt; kit.read(32, 32), Err(PanelFault::SecondStale));
    kit.second(3)?;
    assert_eq!(rt; kit.read(32, 32), Ok((Height(80), 13)));
    assert_eq!(rt; kit.read(63, 63), Ok((Height(80), 13)));
    assert_eq!(rt; kit.read(32, 64), Err(PanelFault::SecondStale));
    kit.second(4)?;
    assert_eq!(rt; kit.read(32, 64), Ok((Height(80), 13)));
    assert_eq!(rt; kit.read(63, 95), Ok((Height(80), 13)));
    assert_eq!(rt; kit.read(32, 96), Err(PanelFault::SecondStale));
    Ok(())
}

// Near the last of eight lines the last three are needed.
#[test]
fn only_the_rows_around(rt: HostRuntime) -> Result<(), Fail> {
    let mut kit = high()?;
    kit.firsts()?;
    kit.second(8)?;
    kit.second(7)?;
    assert_eq!(rt; kit.read(255, 32), Err(PanelFault::SecondStale));
    kit.second(6)?;
    assert_eq!(rt; kit.read(224, 32), Ok((Height(80), 13)));
    assert_eq!(rt; kit.read(255, 63), Ok((Height(80), 13)));
    assert_eq!(rt; kit.read(223, 32), Err(PanelFault::SecondStale));
    kit.second(5)?;
    assert_eq!(rt; kit.read(223, 32), Ok((Height(80), 13)));
    assert_eq!(rt; kit.read(192, 63), Ok((Height(80), 13)));
    assert_eq!(rt; kit.read(191, 32), Err(PanelFault::SecondStale));
    Ok(())
}

// The samples last held are read: at a grid place a reading by elimination is at most 1 from 16 times the sample.
#[test]
fn a_probe_is_read_once_fitted(rt: HostRuntime) -> Result<(), Fail> {
    let mut kit = wide()?;
    kit.firsts()?;
    kit.seconds()?;
    kit.probe(1, 2, Height(-5))?;
    kit.probe(1, 2, Height(6))?;
    kit.first(1)?;
    kit.seconds()?;
    let (height, tolerance) = kit.read(32, 64)?;
    assert_eq!(rt; tolerance, 13);
    assert!(rt; (95..=97).contains(&height.0));
    Ok(())
}
