// The order of the checks: each call is given several faults at once, and then one fewer at a time.
use crate::kit::{Kit, number};
use grid::kinds::Height;
use line::elimination::Elimination;
use panel::record::{Order, Panel};
use panel_fault::PanelFault;
use std::test::Fail;

fn corner() -> Result<Kit<Height, 4>, PanelFault> {
    Kit::made(2, 2, Order::RowsFirst, [Height(0); 4], Height(0))
}

fn making(rows: i32, columns: i32, samples: &[Height], others: &[Height]) -> u8 {
    number(Panel::make(rows, columns, Order::RowsFirst, samples, others, others))
}

// 14, 41, 24.
#[test]
fn of_make(rt: HostRuntime) {
    let beyond = [Height(100_001); 4];
    let good = [Height(0); 4];
    assert_eq!(rt; making(1, 2, &beyond, &good), 14);
    assert_eq!(rt; making(2, 65, &beyond, &good), 14);
    assert_eq!(rt; making(2, 3, &beyond, &beyond), 41);
    assert_eq!(rt; making(2, 2, &beyond, &good[0..3]), 41);
    assert_eq!(rt; making(2, 2, &beyond, &good), 24);
    assert_eq!(rt; making(2, 2, &good, &beyond), 0);
}

// 41, 21, 24, 25.
#[test]
fn of_probe(rt: HostRuntime) -> Result<(), Fail> {
    let mut kit = corner()?;
    kit.probe_often(60_000, Height(4))?;
    let mut short = [Height(0); 3];
    assert_eq!(rt;
        number(kit.panel.probe(&mut short, 0, 1, Height(100_001))),
        41
    );
    assert_eq!(rt; number(kit.probe(0, 1, Height(100_001))), 21);
    assert_eq!(rt; number(kit.probe(1, 1, Height(100_001))), 24);
    assert_eq!(rt; number(kit.probe(1, 1, Height(100_000))), 25);
    Ok(())
}

// 41, 22, 42.
#[test]
fn of_first_line(rt: HostRuntime) -> Result<(), Fail> {
    let mut kit = corner()?;
    kit.samples = [Height(312_501); 4];
    let short = [Height(312_501); 3];
    let answer = kit
        .panel
        .first_line(&short, &mut kit.halves, 0, &Elimination);
    assert_eq!(rt; number(answer), 41);
    assert_eq!(rt; number(kit.first(0)), 22);
    assert_eq!(rt; number(kit.first(1)), 42);
    Ok(())
}

// 41, 22, 31, 42.
#[test]
fn of_second_line(rt: HostRuntime) -> Result<(), Fail> {
    let mut kit = corner()?;
    kit.first(1)?;
    kit.halves = [Height(5_000_001); 4];
    let short = [Height(5_000_001); 3];
    let answer = kit
        .panel
        .second_line(&short, &mut kit.controls, 0, &Elimination);
    assert_eq!(rt; number(answer), 41);
    assert_eq!(rt; number(kit.second(0)), 22);
    assert_eq!(rt; number(kit.second(1)), 31);
    kit.first(2)?;
    assert_eq!(rt; number(kit.second(0)), 22);
    assert_eq!(rt; number(kit.second(1)), 42);
    Ok(())
}

// 41, 23, 32, 43.
#[test]
fn of_read(rt: HostRuntime) -> Result<(), Fail> {
    let mut kit = corner()?;
    let beyond = [Height(16_000_001); 4];
    kit.controls = beyond;
    assert_eq!(rt; number(kit.panel.read(&beyond[0..3], 31, 32)), 41);
    assert_eq!(rt; number(kit.read(31, 32)), 23);
    assert_eq!(rt; number(kit.read(32, 32)), 32);
    kit.firsts()?;
    kit.seconds()?;
    assert_eq!(rt; number(kit.read(32, 32)), 0);
    kit.controls = beyond;
    assert_eq!(rt; number(kit.read(31, 32)), 23);
    assert_eq!(rt; number(kit.read(32, 32)), 43);
    Ok(())
}
