// Worked parts of both kinds, and the corners of a grid.
use crate::kinds::{Height, Point};
use crate::sample::Sample;
use crate::size::{GridSize, Place};

#[test]
fn parts_count_from_one(rt: HostRuntime) {
    let height = Height(-7);
    assert_eq!(rt;
        (height.part(0), height.part(1), height.part(2)),
        (0, -7, 0)
    );
    assert_eq!(rt; height.replace_part(1, 5), Height(5));
    assert_eq!(rt; height.replace_part(2, 5), height);
    let point = Point {
        across: 1,
        along: 2,
        up: 3,
    };
    assert_eq!(rt;
        (point.part(0), point.part(1), point.part(3), point.part(4)),
        (0, 1, 3, 0)
    );
    let moved = Point {
        across: 1,
        along: 9,
        up: 3,
    };
    assert_eq!(rt; point.replace_part(2, 9), moved);
    assert_eq!(rt; point.replace_part(4, 9), point);
}

#[test]
fn places_row_by_row(rt: HostRuntime) {
    let size = GridSize {
        rows: 2,
        columns: 3,
    };
    let second_row = Place { row: 2, column: 1 };
    assert_eq!(rt; size.count(), 6);
    assert_eq!(rt; size.index_of(second_row), Some(3));
    assert_eq!(rt; size.index_of(Place { row: 2, column: 3 }), Some(5));
    assert_eq!(rt; size.index_of(Place { row: 0, column: 1 }), None);
    assert_eq!(rt; size.index_of(Place { row: 1, column: 4 }), None);
    assert_eq!(rt; size.place_of(3), Some(second_row));
    assert_eq!(rt; size.place_of(6), None);
}
