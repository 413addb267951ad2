// Fits lines: the worked ones, then those of the files that are named, or of standard input where none is.
#![tactic(auto)]

mod report;
mod words;

use input::start_of;
use report::{LONGEST_TEXT, show_line, show_text};
use std::io::Read;
use std::{env, fs, io};

// Lines whose solution is known by hand.
fn show_worked(rt: &HostRuntime) -> anyhow::Result<()> {
    let worked: [&[i64]; 4] = [&[7, 7], &[4, 0], &[15, 0, 0], &[0, 15, 0]];
    for line in worked {
        show_line(rt, "worked", line)?;
    }
    Ok(())
}

// The bytes of a text; one more than the limit if it is longer.
fn bytes_of<R: Read + Drop>(rt: &HostRuntime, source: R) -> io::Result<Vec<u8>> {
    start_of(rt.alloc(), source, LONGEST_TEXT + 1)
}

fn bytes_of_file(rt: &HostRuntime, path: &str) -> io::Result<Vec<u8>> {
    bytes_of(rt, fs::open(rt, path)?)
}

// Each file in turn, or standard input. Each program has this for itself: what it prints of a file a library has nothing to promise of.
fn show_given(rt: &HostRuntime) -> anyhow::Result<()> {
    let mut paths = env::args(rt)?.skip(1).peekable();
    if paths.peek().is_none() {
        return show_text(rt, "standard input", bytes_of(rt, rt.stdin()));
    }
    for path in paths {
        show_text(rt, path.as_str(), bytes_of_file(rt, path.as_str()))?;
    }
    Ok(())
}

fn main(rt: HostRuntime) -> anyhow::Result<()> {
    show_worked(&rt)?;
    show_given(&rt)
}
