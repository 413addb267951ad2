// fit_panel: loads each panel file, makes the panel, fits it, reads it, probes one place again, fits again what is stale, and reads again.
#![tactic(auto)]

mod job;
mod report;

use grid::kinds::{Height, Point};
use input::start_of;
use job::show_panel;
use panel_file::{Kind, PanelFile, enough, open};
use report::show_file;
use std::{env, fs, io};

// The panel of a file that was opened, by the kind of its samples.
fn show_opened(rt: &HostRuntime, bytes: &[u8], file: &PanelFile) -> anyhow::Result<()> {
    show_file(rt, file)?;
    match file.kind {
        Kind::Heights => show_panel(rt, bytes, file.size, Height::default()),
        Kind::Points => show_panel(rt, bytes, file.size, Point::default()),
    }
}

// One file under its name.
fn show_source(rt: &HostRuntime, name: &str, bytes: io::Result<Vec<u8>>) -> anyhow::Result<()> {
    print!(rt; "{name}: ")?;
    let bytes = match bytes {
        Ok(bytes) => bytes,
        Err(error) => {
            println!(rt; "cannot be read: {error}")?;
            return Ok(());
        }
    };
    match open(bytes.as_slice()) {
        Ok(file) => show_opened(rt, bytes.as_slice(), &file),
        Err(refusal) => {
            println!(rt; "{refusal}: not a panel file")?;
            Ok(())
        }
    }
}

// The start of a file, no more than tells whether it is a panel file. Each program opens its own: of what a file holds a library has nothing to
// promise.
fn start_of_file(rt: &HostRuntime, path: &str) -> io::Result<Vec<u8>> {
    start_of(rt.alloc(), fs::open(rt, path)?, enough())
}

// Each file in turn, or standard input. Each program has this for itself: what it prints of a file a library has nothing to promise of.
fn main(rt: HostRuntime) -> anyhow::Result<()> {
    let mut paths = env::args(&rt)?.skip(1).peekable();
    if paths.peek().is_none() {
        let input = start_of(rt.alloc(), rt.stdin(), enough());
        return show_source(&rt, "standard input", input);
    }
    for path in paths {
        show_source(&rt, path.as_str(), start_of_file(&rt, path.as_str()))?;
    }
    Ok(())
}
