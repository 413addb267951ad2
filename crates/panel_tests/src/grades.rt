// The tolerance of lines run by solvers of two grades, 3 of elimination and 7 of a coarser one: the greatest grade of the needed second
// lines, three times the greatest of all first lines, and 1.
use crate::coarse::Coarse;
use crate::kit::Kit;
use grid::kinds::Height;
use line::elimination::Elimination;
use line::solver::LineSolver;
use panel::record::Order;
use panel_fault::PanelFault;
use std::process::Abort;
use std::test::Fail;

// The tolerance at a place, and 0 if the reading is refused.
fn tolerance<const N: usize>(kit: &Kit<Height, N>, x: i32, y: i32) -> u32 {
    kit.read(x, y).map_or(0, |(_, tolerance)| tolerance)
}

fn corner(order: Order) -> Result<Kit<Height, 4>, PanelFault> {
    Kit::made(2, 2, order, [Height(5); 4], Height(9))
}

// Two first lines and two second lines, each by its solver.
fn mixed<A: LineSolver, B: LineSolver, C: LineSolver, D: LineSolver>(
    order: Order,
    first: (&A, &B),
    second: (&C, &D),
) -> Result<u32, PanelFault> {
    let mut kit = corner(order)?;
    kit.first_by(1, first.0)?;
    kit.first_by(2, first.1)?;
    kit.second_by(1, second.0)?;
    kit.second_by(2, second.1)?;
    Ok(tolerance(&kit, 32, 32))
}

fn every_mix(rt: &impl Abort, order: Order) -> Result<(), Fail> {
    let (fine, coarse) = (Elimination, Coarse);
    assert_eq!(rt; mixed(order, (&fine, &fine), (&fine, &fine))?, 13);
    assert_eq!(rt; mixed(order, (&coarse, &fine), (&fine, &fine))?, 25);
    assert_eq!(rt; mixed(order, (&fine, &coarse), (&fine, &fine))?, 25);
    assert_eq!(rt; mixed(order, (&fine, &fine), (&coarse, &fine))?, 17);
    assert_eq!(rt; mixed(order, (&fine, &fine), (&fine, &coarse))?, 17);
    assert_eq!(rt; mixed(order, (&coarse, &fine), (&fine, &coarse))?, 29);
    assert_eq!(rt; mixed(order, (&coarse, &coarse), (&coarse, &coarse))?, 29);
    Ok(())
}

#[test]
fn the_greatest_and_not_the_last(rt: HostRuntime) -> Result<(), Fail> {
    every_mix(&rt, Order::RowsFirst)?;
    every_mix(&rt, Order::ColumnsFirst)
}

// A line run again has the grade of its last run.
#[test]
fn a_line_run_again(rt: HostRuntime) -> Result<(), Fail> {
    let mut kit = corner(Order::RowsFirst)?;
    kit.first_by(1, &Coarse)?;
    kit.first(2)?;
    kit.second_by(1, &Coarse)?;
    kit.second(2)?;
    assert_eq!(rt; tolerance(&kit, 32, 32), 29);
    kit.second(1)?;
    assert_eq!(rt; tolerance(&kit, 32, 32), 25);
    kit.first(1)?;
    kit.seconds()?;
    assert_eq!(rt; tolerance(&kit, 32, 32), 13);
    kit.second_by(2, &Coarse)?;
    assert_eq!(rt; tolerance(&kit, 32, 32), 17);
    Ok(())
}

// Two rows of eight with one column by the coarser solver.
fn one_coarse(column: i32) -> Result<Kit<Height, 16>, PanelFault> {
    let mut kit = Kit::fitted(2, 8, Order::RowsFirst, [Height(5); 16], Height(9))?;
    kit.second_by(column, &Coarse)?;
    Ok(kit)
}

// A reading needs the columns from the one before it to the second after it.
#[test]
fn needed_second_lines_alone(rt: HostRuntime) -> Result<(), Fail> {
    let third = one_coarse(3)?;
    assert_eq!(rt; tolerance(&third, 32, 32), 17);
    assert_eq!(rt; tolerance(&third, 63, 127), 17);
    assert_eq!(rt; tolerance(&third, 32, 128), 17);
    assert_eq!(rt; tolerance(&third, 63, 159), 17);
    assert_eq!(rt; tolerance(&third, 32, 160), 13);
    let last = one_coarse(8)?;
    assert_eq!(rt; tolerance(&last, 32, 32), 13);
    assert_eq!(rt; tolerance(&last, 63, 191), 13);
    assert_eq!(rt; tolerance(&last, 32, 192), 17);
    assert_eq!(rt; tolerance(&last, 63, 255), 17);
    Ok(())
}

// Eight rows of two, rows first: the last row counts at the first one too.
#[test]
fn all_first_lines(rt: HostRuntime) -> Result<(), Fail> {
    let mut kit = Kit::fitted(8, 2, Order::RowsFirst, [Height(5); 16], Height(9))?;
    assert_eq!(rt; tolerance(&kit, 32, 32), 13);
    kit.first_by(8, &Coarse)?;
    kit.seconds()?;
    assert_eq!(rt; tolerance(&kit, 32, 32), 25);
    assert_eq!(rt; tolerance(&kit, 255, 63), 25);
    Ok(())
}

// The same columns first.
#[test]
fn all_first_lines_columns_first(rt: HostRuntime) -> Result<(), Fail> {
    let mut kit = Kit::fitted(2, 8, Order::ColumnsFirst, [Height(5); 16], Height(9))?;
    kit.first_by(1, &Coarse)?;
    kit.seconds()?;
    assert_eq!(rt; tolerance(&kit, 32, 255), 25);
    Ok(())
}

// A probe and a refused run leave the grades.
#[test]
fn what_leaves_the_grades(rt: HostRuntime) -> Result<(), Fail> {
    let mut kit = corner(Order::RowsFirst)?;
    kit.first(1)?;
    kit.first_by(2, &Coarse)?;
    kit.probe(1, 1, Height(6))?;
    assert!(rt; kit.first_by(3, &Coarse).is_err());
    kit.first(1)?;
    kit.seconds()?;
    assert_eq!(rt; tolerance(&kit, 32, 32), 25);
    assert!(rt; kit.second_by(0, &Coarse).is_err());
    assert_eq!(rt; tolerance(&kit, 32, 32), 25);
    Ok(())
}
