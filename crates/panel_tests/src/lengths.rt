// A grid one sample too short or too long is refused, by each call and for each grid that it takes, and nothing changes.
use crate::kit::{Kit, number};
use grid::kinds::Height;
use line::elimination::Elimination;
use panel::record::{Order, Panel};
use panel_fault::PanelFault;
use std::process::Abort;
use std::test::Fail;

fn two_by_three() -> Result<Kit<Height, 6>, PanelFault> {
    Kit::fitted(2, 3, Order::RowsFirst, [Height(5); 6], Height(9))
}

fn making(samples: &[Height], halves: &[Height], controls: &[Height]) -> u8 {
    number(Panel::make(2, 3, Order::RowsFirst, samples, halves, controls))
}

#[test]
fn grids_of_make(rt: HostRuntime) {
    let (short, good, long) = ([Height(0); 5], [Height(0); 6], [Height(0); 7]);
    assert_eq!(rt; making(&good, &good, &good), 0);
    assert_eq!(rt; making(&short, &good, &good), 41);
    assert_eq!(rt; making(&long, &good, &good), 41);
    assert_eq!(rt; making(&good, &short, &good), 41);
    assert_eq!(rt; making(&good, &long, &good), 41);
    assert_eq!(rt; making(&good, &good, &short), 41);
    assert_eq!(rt; making(&good, &good, &long), 41);
    assert_eq!(rt; making(&[], &[], &[]), 41);
}

// The panel is as it was: every line is current, and a reading of level heights is 16 times the height.
fn unharmed(rt: &impl Abort, kit: &Kit<Height, 6>) {
    assert_eq!(rt; kit.samples, [Height(5); 6]);
    assert_eq!(rt; kit.halves, [Height(80); 6]);
    assert_eq!(rt; kit.controls, [Height(80); 6]);
    assert_eq!(rt; kit.read(32, 32), Ok((Height(80), 13)));
}

fn probing(kit: &mut Kit<Height, 6>, samples: &mut [Height]) -> u8 {
    number(kit.panel.probe(samples, 1, 1, Height(6)))
}

#[test]
fn grids_of_probe(rt: HostRuntime) -> Result<(), Fail> {
    let mut kit = two_by_three()?;
    let (mut short, mut long) = ([Height(1); 5], [Height(1); 7]);
    assert_eq!(rt; probing(&mut kit, &mut short), 41);
    assert_eq!(rt; probing(&mut kit, &mut long), 41);
    assert_eq!(rt; short, [Height(1); 5]);
    assert_eq!(rt; long, [Height(1); 7]);
    unharmed(&rt, &kit);
    Ok(())
}

fn first_of(kit: &mut Kit<Height, 6>, samples: &[Height], halves: &mut [Height]) -> u8 {
    number(kit.panel.first_line(samples, halves, 1, &Elimination))
}

#[test]
fn grids_of_first_line(rt: HostRuntime) -> Result<(), Fail> {
    let mut kit = two_by_three()?;
    let (mut short, mut good, mut long) = ([Height(1); 5], [Height(1); 6], [Height(1); 7]);
    assert_eq!(rt; first_of(&mut kit, &[Height(1); 5], &mut good), 41);
    assert_eq!(rt; first_of(&mut kit, &[Height(1); 7], &mut good), 41);
    assert_eq!(rt; first_of(&mut kit, &[Height(1); 6], &mut short), 41);
    assert_eq!(rt; first_of(&mut kit, &[Height(1); 6], &mut long), 41);
    assert_eq!(rt; short, [Height(1); 5]);
    assert_eq!(rt; good, [Height(1); 6]);
    assert_eq!(rt; long, [Height(1); 7]);
    unharmed(&rt, &kit);
    Ok(())
}

fn second_of(kit: &mut Kit<Height, 6>, halves: &[Height], controls: &mut [Height]) -> u8 {
    number(kit.panel.second_line(halves, controls, 1, &Elimination))
}

#[test]
fn grids_of_second_line(rt: HostRuntime) -> Result<(), Fail> {
    let mut kit = two_by_three()?;
    let (mut short, mut good, mut long) = ([Height(1); 5], [Height(1); 6], [Height(1); 7]);
    assert_eq!(rt; second_of(&mut kit, &[Height(1); 5], &mut good), 41);
    assert_eq!(rt; second_of(&mut kit, &[Height(1); 7], &mut good), 41);
    assert_eq!(rt; second_of(&mut kit, &[Height(1); 6], &mut short), 41);
    assert_eq!(rt; second_of(&mut kit, &[Height(1); 6], &mut long), 41);
    assert_eq!(rt; short, [Height(1); 5]);
    assert_eq!(rt; good, [Height(1); 6]);
    assert_eq!(rt; long, [Height(1); 7]);
    unharmed(&rt, &kit);
    Ok(())
}

#[test]
fn grids_of_read(rt: HostRuntime) -> Result<(), Fail> {
    let kit = two_by_three()?;
    let (short, long) = ([Height(1); 5], [Height(1); 7]);
    assert_eq!(rt; number(kit.panel.read(&short, 32, 32)), 41);
    assert_eq!(rt; number(kit.panel.read(&long, 32, 32)), 41);
    unharmed(&rt, &kit);
    Ok(())
}
