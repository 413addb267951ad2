// inspect: says what each panel file holds, and which controllers load it or why they do not.
#![tactic(auto)]

use grid::kinds::{Height, Point};
use grid::sample::Sample;
use grid::size::GridSize;
use input::start_of;
use panel_file::{FillFault, PanelFile, enough, fill, open};
use std::{env, fs, io};

// Whether a controller that carves from samples like `blank` loads the file.
fn print_load<K: Sample + Clone>(
    rt: &HostRuntime,
    kind: &str,
    bytes: &[u8],
    file: &PanelFile,
    blank: K,
) -> io::Result<()> {
    print!(rt; "  {kind}: ")?;
    let Ok(mut grid) = vec![in rt.alloc(); blank; file.size.count()] else {
        return println!(rt; "no memory to try");
    };
    match fill(bytes, grid.as_mut_slice()) {
        Ok(()) => println!(rt; "loads"),
        Err(FillFault::File(refusal)) => println!(rt;
            "{refusal}: this controller carves from samples with another number of parts"
        ),
        Err(fault) => println!(rt; "refused {}: {fault}", fault.number()),
    }
}

fn print_file(rt: &HostRuntime, bytes: &[u8]) -> io::Result<()> {
    let file = match open(bytes) {
        Ok(file) => file,
        Err(refusal) => {
            let advice = refusal.fault;
            return println!(rt; "  {refusal}: {advice}");
        }
    };
    let GridSize { rows, columns } = file.size;
    let parts = file.kind.parts();
    let Ok(name) = String::from_utf8_lossy(rt.alloc(), file.name) else {
        return println!(rt; "  no memory to show its name");
    };
    println!(rt; "  rows {rows}, columns {columns}, parts {parts}, name \"{name}\"")?;
    print_load(rt, "heights", bytes, &file, Height::default())?;
    print_load(rt, "points", bytes, &file, Point::default())
}

// The start of a file, no more than tells whether it is a panel file. Each program opens its own: of what a file holds a library has nothing to
// promise.
fn start_of_file(rt: &HostRuntime, path: &str) -> io::Result<Vec<u8>> {
    start_of(rt.alloc(), fs::open(rt, path)?, enough())
}

fn inspect(rt: &HostRuntime, name: &str, bytes: io::Result<Vec<u8>>) -> io::Result<()> {
    println!(rt; "{name}")?;
    match bytes {
        Ok(bytes) => print_file(rt, bytes.as_slice()),
        Err(error) => println!(rt; "  cannot be read: {error}"),
    }
}

// Each file in turn, or standard input. Each program has this for itself: what it prints of a file a library has nothing to promise of.
fn main(rt: HostRuntime) -> io::Result<()> {
    let mut paths = env::args(&rt)?.skip(1).peekable();
    if paths.peek().is_none() {
        let input = start_of(rt.alloc(), rt.stdin(), enough());
        return inspect(&rt, "standard input", input);
    }
    for path in paths {
        inspect(&rt, path.as_str(), start_of_file(&rt, path.as_str()))?;
    }
    Ok(())
}
