// Each limit on both sides: sizes, parts of samples, lines, the area of readings.
ghost use Rattle.std.specs.Prelude.{◌≤◌, unsigned_abs};

use crate::kit::{Kit, number, point};
use grid::kinds::{Height, Point};
use line::solver::SolveFault;
use panel::record::{Order, Panel};
use panel_fault::PanelFault;
use std::process::Abort;
use std::test::Fail;

// Level heights have level control points, so each reading is 16 times the height; these are the last ones.
#[test]
fn least_and_greatest_sizes(rt: HostRuntime) -> Result<(), Fail> {
    let order = Order::RowsFirst;
    let least = Kit::fitted(2, 2, order, [Height(100_000); 4], Height(9))?;
    assert_eq!(rt; least.read(63, 63), Ok((Height(1_600_000), 13)));
    let wide = Kit::fitted(2, 64, order, [Height(-100_000); 128], Height(9))?;
    assert_eq!(rt; wide.read(63, 2047), Ok((Height(-1_600_000), 13)));
    let high = Kit::fitted(64, 2, order, [Height(100_000); 128], Height(9))?;
    assert_eq!(rt; high.read(2047, 63), Ok((Height(1_600_000), 13)));
    Ok(())
}

#[test]
fn greatest_size_both_ways(rt: HostRuntime) -> Result<(), Fail> {
    let kit = Kit::fitted(
        64,
        64,
        Order::ColumnsFirst,
        [Height(100_000); 4096],
        Height(9),
    )?;
    assert_eq!(rt; kit.read(2047, 2047), Ok((Height(1_600_000), 13)));
    assert_eq!(rt; number(kit.read(2048, 2047)), 23);
    assert_eq!(rt; number(kit.read(2047, 2048)), 23);
    Ok(())
}

fn size(rows: i32, columns: i32, grid: &[Height]) -> u8 {
    number(Panel::make(rows, columns, Order::RowsFirst, grid, grid, grid))
}

#[test]
fn sizes_beyond(rt: HostRuntime) {
    assert_eq!(rt; size(1, 2, &[Height(0); 2]), 14);
    assert_eq!(rt; size(2, 1, &[Height(0); 2]), 14);
    assert_eq!(rt; size(65, 2, &[Height(0); 130]), 14);
    assert_eq!(rt; size(2, 65, &[Height(0); 130]), 14);
    assert_eq!(rt; size(0, 2, &[]), 14);
    assert_eq!(rt; size(2, 0, &[]), 14);
    assert_eq!(rt; size(-2, -2, &[Height(0); 4]), 14);
    assert_eq!(rt; size(-2, 2, &[Height(0); 4]), 14);
    assert_eq!(rt; size(2, -2, &[Height(0); 4]), 14);
    assert_eq!(rt; size(i32::MIN, i32::MAX, &[Height(0); 4]), 14);
}

fn beyond(row: usize, column: usize, part: usize) -> Option<PanelFault> {
    Some(PanelFault::PartBeyond { row, column, part })
}

// What make says of a two by three panel with one height, or a second one too.
fn making(first: i32, second: i32) -> Option<PanelFault> {
    let mut samples = [Height(0); 6];
    samples[4] = Height(first);
    samples[5] = Height(second);
    Kit::made(2, 3, Order::ColumnsFirst, samples, Height(0)).err()
}

#[test]
fn heights_of_make(rt: HostRuntime) {
    assert_eq!(rt; making(100_000, -100_000), None);
    assert_eq!(rt; making(100_001, 0), beyond(2, 2, 1));
    assert_eq!(rt; making(-100_001, 100_001), beyond(2, 2, 1));
    assert_eq!(rt; making(0, 100_001), beyond(2, 3, 1));
    assert_eq!(rt; making(i32::MIN, 0), beyond(2, 2, 1));
    assert_eq!(rt; making(0, i32::MAX), beyond(2, 3, 1));
}

// The same of points in column 3 of row 1 and column 1 of row 2.
fn making_points(first: Point, second: Point) -> Option<PanelFault> {
    let mut samples = [point(0, 0, 0); 6];
    samples[2] = first;
    samples[3] = second;
    Kit::made(2, 3, Order::RowsFirst, samples, point(0, 0, 0)).err()
}

#[test]
fn points_of_make(rt: HostRuntime) {
    let good = point(100_000, -100_000, 100_000);
    assert_eq!(rt; making_points(good, good), None);
    assert_eq!(rt;
        making_points(point(0, 100_001, 100_001), point(100_001, 0, 0)),
        beyond(1, 3, 2)
    );
    assert_eq!(rt; making_points(point(0, 0, -100_001), good), beyond(1, 3, 3));
    assert_eq!(rt; making_points(good, point(-100_001, 0, 0)), beyond(2, 1, 1));
}

fn two_by_three(order: Order) -> Result<Kit<Height, 6>, PanelFault> {
    Kit::fitted(2, 3, order, [Height(5); 6], Height(9))
}

// Parts of probes; a refused probe leaves the samples.
#[test]
fn parts_of_probes(rt: HostRuntime) -> Result<(), Fail> {
    let mut kit = two_by_three(Order::RowsFirst)?;
    assert_eq!(rt; kit.probe(2, 1, Height(100_000)), Ok(()));
    assert_eq!(rt; kit.probe(2, 3, Height(-100_000)), Ok(()));
    assert_eq!(rt; kit.probe(2, 2, Height(100_001)).err(), beyond(2, 2, 1));
    assert_eq!(rt; kit.probe(1, 3, Height(-100_001)).err(), beyond(1, 3, 1));
    assert_eq!(rt;
        kit.samples,
        [
            Height(5),
            Height(5),
            Height(5),
            Height(100_000),
            Height(5),
            Height(-100_000),
        ]
    );
    Ok(())
}

#[test]
fn places_of_probes(rt: HostRuntime) -> Result<(), Fail> {
    let mut kit = two_by_three(Order::ColumnsFirst)?;
    let off: [(i32, i32); 9] = [
        (0, 1),
        (1, 0),
        (3, 1),
        (1, 4),
        (-1, 1),
        (1, -1),
        (3, 2),
        (i32::MIN, 1),
        (1, i32::MAX),
    ];
    for (row, column) in off {
        assert_eq!(rt; kit.probe(row, column, Height(6)), Err(PanelFault::Place));
    }
    assert_eq!(rt; kit.samples, [Height(5); 6]);
    assert_eq!(rt; kit.probe(1, 1, Height(6)), Ok(()));
    assert_eq!(rt; kit.probe(2, 3, Height(7)), Ok(()));
    assert_eq!(rt;
        kit.samples,
        [
            Height(6),
            Height(5),
            Height(5),
            Height(5),
            Height(5),
            Height(7),
        ]
    );
    Ok(())
}

// Lines 1 to so many are taken, those beyond are refused, and a refused line leaves the panel fitted.
fn first_lines(rt: &impl Abort, order: Order, count: i32) -> Result<(), Fail>
    requires { unsigned_abs count ≤ 3 }
{
    let mut kit = two_by_three(order)?;
    let off = [0, -1, count + 1, i32::MIN, i32::MAX];
    for line in off {
        assert_eq!(rt; kit.first(line), Err(PanelFault::NoLine));
    }
    assert_eq!(rt; kit.read(32, 32), Ok((Height(80), 13)));
    for line in 1..=count {
        assert_eq!(rt; kit.first(line), Ok(()));
    }
    Ok(())
}

fn second_lines(rt: &impl Abort, order: Order, count: i32) -> Result<(), Fail>
    requires { unsigned_abs count ≤ 3 }
{
    let mut kit = two_by_three(order)?;
    let off = [0, -1, count + 1, i32::MIN, i32::MAX];
    for line in off {
        assert_eq!(rt; kit.second(line), Err(PanelFault::NoLine));
    }
    for line in 1..=count {
        assert_eq!(rt; kit.second(line), Ok(()));
    }
    assert_eq!(rt; kit.read(32, 32), Ok((Height(80), 13)));
    Ok(())
}

#[test]
fn lines(rt: HostRuntime) -> Result<(), Fail> {
    first_lines(&rt, Order::RowsFirst, 2)?;
    first_lines(&rt, Order::ColumnsFirst, 3)?;
    second_lines(&rt, Order::RowsFirst, 3)?;
    second_lines(&rt, Order::ColumnsFirst, 2)
}

// The area goes from 32 up to, and without, 32 times the rows and 32 times the columns.
fn area(rt: &impl Abort, order: Order) -> Result<(), Fail> {
    let kit = two_by_three(order)?;
    let table: [(i32, i32, u8); 15] = [
        (32, 32, 0),
        (63, 32, 0),
        (32, 95, 0),
        (63, 95, 0),
        (31, 32, 23),
        (32, 31, 23),
        (64, 32, 23),
        (63, 96, 23),
        (64, 96, 23),
        (0, 0, 23),
        (-32, 32, 23),
        (32, -32, 23),
        (95, 63, 23),
        (i32::MIN, 40, 23),
        (40, i32::MAX, 23),
    ];
    for (x, y, answer) in table {
        assert_eq!(rt; number(kit.read(x, y)), answer);
    }
    Ok(())
}

#[test]
fn area_of_readings(rt: HostRuntime) -> Result<(), Fail> {
    area(&rt, Order::RowsFirst)?;
    area(&rt, Order::ColumnsFirst)
}

#[test]
fn numbers_of_the_faults(rt: HostRuntime) {
    let table: [(PanelFault, u8); 11] = [
        (PanelFault::Size, 14),
        (PanelFault::Place, 21),
        (PanelFault::NoLine, 22),
        (PanelFault::OutsideArea, 23),
        (
            PanelFault::PartBeyond {
                row: 1,
                column: 2,
                part: 3,
            },
            24,
        ),
        (PanelFault::TooManyProbes, 25),
        (PanelFault::FirstStale, 31),
        (PanelFault::SecondStale, 32),
        (PanelFault::GridLength, 41),
        (
            PanelFault::Solver {
                line: 1,
                part: 2,
                fault: SolveFault::Beyond(3),
            },
            42,
        ),
        (PanelFault::ControlBeyond, 43),
    ];
    for (fault, expected) in table {
        assert_eq!(rt; fault.number(), expected);
    }
}
