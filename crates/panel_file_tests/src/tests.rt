// Worked panel files: every refusal at its first and last field, and each limit on both sides.
use grid::kinds::{Height, Point};
use panel_file::{FileFault, FileRefusal, FillFault, Kind, Section, fill, open};
use std::test::Fail;

// Two by two heights 4, 0, 0, 0, with the name A.
const HEIGHTS: [u8; 26] = [
    3, 0, 2, 2, 1, 4, 0, 4, 0, 0, 0, 0, 0, 0, 0, 0, 0, 0, 0, 0, 0, 0, 0, 1, 0, 65,
];

// The number, the section and the offset of a refusal, and zeros of a file that opens.
fn verdict(file: &[u8]) -> (u8, u8, usize) {
    open(file).err().map_or((0, 0, 0), |refusal| {
        (
            refusal.fault.number(),
            refusal.section.number(),
            refusal.offset,
        )
    })
}

// The verdict on the worked file with one byte changed.
fn with_byte(at: usize, byte: u8) -> (u8, u8, usize) {
    let mut file = HEIGHTS;
    if let Some(old) = file.get_mut(at) {
        *old = byte;
    }
    verdict(&file)
}

#[test]
fn worked_file_opens(rt: HostRuntime) -> Result<(), Fail> {
    let file = open(&HEIGHTS)?;
    assert_eq!(rt; file.size.rows, 2);
    assert_eq!(rt; file.size.columns, 2);
    assert_eq!(rt; file.kind, Kind::Heights);
    assert_eq!(rt; file.kind.parts(), 1);
    assert!(rt; file.name.len() == 1);
    assert_eq!(rt; file.name[0], 65);
    Ok(())
}

// Each proper beginning ends early, at the first field that is not whole.
#[test]
fn every_beginning_ends_early(rt: HostRuntime) {
    let fields: [(u8, usize); 26] = [
        (1, 0),
        (1, 0),
        (1, 2),
        (1, 3),
        (1, 4),
        (2, 5),
        (2, 5),
        (2, 7),
        (2, 7),
        (2, 7),
        (2, 7),
        (2, 11),
        (2, 11),
        (2, 11),
        (2, 11),
        (2, 15),
        (2, 15),
        (2, 15),
        (2, 15),
        (2, 19),
        (2, 19),
        (2, 19),
        (2, 19),
        (3, 23),
        (3, 23),
        (3, 25),
    ];
    for (length, (section, offset)) in fields.iter().copied().enumerate() {
        assert_eq!(rt; verdict(&HEIGHTS[0..length]), (11, section, offset));
    }
}

#[test]
fn wrong_bytes_are_named(rt: HostRuntime) {
    // (offset, byte, number, section, offset of the field)
    let table: [(usize, u8, u8, u8, usize); 23] = [
        (0, 2, 12, 1, 0),
        (1, 1, 12, 1, 0),
        (2, 1, 14, 1, 2),
        (2, 65, 14, 1, 2),
        (3, 1, 14, 1, 3),
        (3, 65, 14, 1, 3),
        (4, 0, 13, 1, 4),
        (4, 2, 13, 1, 4),
        (4, 4, 13, 1, 4),
        (4, 17, 13, 1, 4),
        (5, 3, 12, 2, 5),
        (6, 1, 12, 2, 5),
        (10, 1, 15, 2, 7),
        (10, 128, 15, 2, 7),
        (22, 1, 15, 2, 19),
        (22, 127, 15, 2, 19),
        (23, 41, 12, 3, 23),
        (24, 1, 12, 3, 23),
        (23, 40, 11, 3, 26),
        (23, 0, 16, 3, 25),
        (25, 31, 17, 3, 25),
        (25, 127, 17, 3, 25),
        (25, 126, 0, 0, 0),
    ];
    for (at, byte, number, section, offset) in table {
        assert_eq!(rt; with_byte(at, byte), (number, section, offset));
    }
}

// 100,000 is 0x000186a0, and -100,000 is 0xfffe7960.
#[test]
fn parts_up_to_the_limit(rt: HostRuntime) {
    let table: [([u8; 4], u8); 6] = [
        ([0xa0, 0x86, 0x01, 0x00], 0),
        ([0xa1, 0x86, 0x01, 0x00], 15),
        ([0x60, 0x79, 0xfe, 0xff], 0),
        ([0x5f, 0x79, 0xfe, 0xff], 15),
        ([0xff, 0xff, 0xff, 0x7f], 15),
        ([0x00, 0x00, 0x00, 0x80], 15),
    ];
    for (bytes, number) in table {
        let mut file = HEIGHTS;
        file[19..23].copy_from_slice(&bytes);
        assert_eq!(rt; verdict(&file).0, number);
    }
}

#[test]
fn bytes_left_over(rt: HostRuntime) {
    let mut file = [0; 30];
    file[0..26].copy_from_slice(&HEIGHTS);
    assert_eq!(rt; verdict(&file), (16, 3, 26));
    assert_eq!(rt; verdict(&file[0..27]), (16, 3, 26));
}

// That a field is not whole is said before what its bytes say.
#[test]
fn ends_early_before_all_else(rt: HostRuntime) {
    assert_eq!(rt; verdict(&[]), (11, 1, 0));
    assert_eq!(rt; verdict(&[4]), (11, 1, 0));
    assert_eq!(rt; verdict(&[3, 0, 2, 2, 1, 9]), (11, 2, 5));
    assert_eq!(rt; verdict(&[3, 0, 2, 2, 1, 4, 0, 255, 255, 255]), (11, 2, 7));
}

// A file of two by two heights with a name of so many letters.
fn with_name(count: u8, last: u8) -> (u8, u8, usize) {
    let mut file = [97; 66];
    file[0..25].copy_from_slice(&HEIGHTS[0..25]);
    file[23] = count;
    let end = 25 + usize::from(count);
    if count == 0 || end > 66 {
        return verdict(&file[0..25]);
    }
    file[end - 1] = last;
    verdict(&file[0..end])
}

#[test]
fn names_up_to_the_limit(rt: HostRuntime) {
    assert_eq!(rt; with_name(0, 97), (0, 0, 0));
    assert_eq!(rt; with_name(1, 32), (0, 0, 0));
    assert_eq!(rt; with_name(40, 126), (0, 0, 0));
    assert_eq!(rt; with_name(41, 97), (12, 3, 23));
    assert_eq!(rt; with_name(40, 127), (17, 3, 64));
    assert_eq!(rt; with_name(40, 31), (17, 3, 64));
}

#[test]
fn fills_heights(rt: HostRuntime) {
    let mut grid = [Height(9); 4];
    assert_eq!(rt; fill(&HEIGHTS, &mut grid), Ok(()));
    assert_eq!(rt; grid, [Height(4), Height(0), Height(0), Height(0)]);
}

// The refusal of a file as `fill` answers it.
fn file_refused(fault: FileFault, section: Section, offset: usize) -> Result<(), FillFault> {
    Err(FillFault::File(FileRefusal {
        fault,
        section,
        offset,
    }))
}

#[test]
fn a_refusal_leaves_the_grid(rt: HostRuntime) {
    let mut short = [Height(9); 3];
    assert_eq!(rt; fill(&HEIGHTS, &mut short), Err(FillFault::GridLength));
    assert_eq!(rt; short, [Height(9); 3]);
    let mut long = [Height(9); 5];
    assert_eq!(rt; fill(&HEIGHTS, &mut long), Err(FillFault::GridLength));
    assert_eq!(rt; FillFault::GridLength.number(), 41);
    assert_eq!(rt; long, [Height(9); 5]);
    let mut cut = [Height(9); 4];
    let early = file_refused(FileFault::EndsEarly, Section::Name, 25);
    assert_eq!(rt; fill(&HEIGHTS[0..25], &mut cut), early);
    assert_eq!(rt; cut, [Height(9); 4]);
}

// The file is checked before the grid's kind and length, a part of a point at its last field too.
#[test]
fn the_file_comes_first(rt: HostRuntime) {
    let mut file = POINTS;
    file[54] = 0;
    assert_eq!(rt; verdict(&file), (15, 2, 51));
    let mut grid = [Height(9); 3];
    let beyond = file_refused(FileFault::PartBeyond, Section::Samples, 51);
    assert_eq!(rt; fill(&file, &mut grid), beyond);
    assert_eq!(rt; grid, [Height(9); 3]);
}

// The grid's kind is checked before its length.
#[test]
fn points_do_not_take_heights(rt: HostRuntime) {
    let old = Point {
        across: 1,
        along: 2,
        up: 3,
    };
    let mut grid = [old; 3];
    let heights = file_refused(FileFault::WrongParts, Section::Sizes, 4);
    assert_eq!(rt; fill(&HEIGHTS, &mut grid), heights);
    assert_eq!(rt; grid, [old; 3]);
}

// The sizes and both counts of a file of zeros without a name.
fn blank(rows: u8, columns: u8, parts: u8) -> [u8; 1545] {
    let mut file = [0; 1545];
    let [low, high] = (u16::from(rows) * u16::from(columns)).to_le_bytes();
    file[0..7].copy_from_slice(&[3, 0, rows, columns, parts, low, high]);
    file
}

#[test]
fn sizes_up_to_the_limit(rt: HostRuntime) {
    // (rows, columns, parts, bytes, number, offset of the field)
    let table: [(u8, u8, u8, usize, u8, usize); 9] = [
        (2, 2, 1, 25, 0, 0),
        (2, 2, 3, 57, 0, 0),
        (64, 2, 1, 521, 0, 0),
        (2, 64, 1, 521, 0, 0),
        (64, 2, 3, 1545, 0, 0),
        (1, 2, 1, 17, 14, 2),
        (2, 1, 1, 17, 14, 3),
        (65, 2, 1, 529, 14, 2),
        (2, 65, 1, 529, 14, 3),
    ];
    for (rows, columns, parts, length, number, offset) in table {
        let file = blank(rows, columns, parts);
        assert!(rt; length <= 1545);
        let (found, _, at) = verdict(&file[0..length]);
        assert_eq!(rt; (found, at), (number, offset));
    }
}

// Two by two points with the parts 1 to 11, and -1 as the last, without a name.
const POINTS: [u8; 57] = [
    3, 0, 2, 2, 3, 4, 0, 1, 0, 0, 0, 2, 0, 0, 0, 3, 0, 0, 0, 4, 0, 0, 0, 5, 0, 0, 0, 6, 0, 0, 0, 7,
    0, 0, 0, 8, 0, 0, 0, 9, 0, 0, 0, 10, 0, 0, 0, 11, 0, 0, 0, 255, 255, 255, 255, 0, 0,
];

#[test]
fn fills_points(rt: HostRuntime) {
    let mut grid = [Point {
        across: 9,
        along: 9,
        up: 9,
    }; 4];
    assert_eq!(rt; fill(&POINTS, &mut grid), Ok(()));
    let first = Point {
        across: 1,
        along: 2,
        up: 3,
    };
    let last = Point {
        across: 10,
        along: 11,
        up: -1,
    };
    assert_eq!(rt; grid[0], first);
    assert_eq!(rt; grid[3], last);
}
