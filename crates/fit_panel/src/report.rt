// What is shown: a file, a sample, a reading, a refusal.
use grid::sample::Sample;
use grid::size::GridSize;
use panel_fault::PanelFault;
use panel_file::{Kind, PanelFile};
use std::io;

// What a file says of itself.
pub(crate) fn show_file(rt: &HostRuntime, file: &PanelFile) -> anyhow::Result<()> {
    let GridSize { rows, columns } = file.size;
    let kind = match file.kind {
        Kind::Heights => "heights",
        Kind::Points => "points",
    };
    let name = String::from_utf8_lossy(rt.alloc(), file.name)?;
    println!(rt; "{rows} by {columns} {kind}, \"{name}\"")?;
    Ok(())
}

// The parts of a sample.
pub(crate) fn show_sample<K: Sample>(rt: &HostRuntime, sample: &K) -> io::Result<()> {
    let first = sample.part(1);
    print!(rt; "{first}")?;
    for k in 2..=K::PARTS {
        let part = sample.part(k);
        print!(rt; " {part}")?;
    }
    Ok(())
}

// A reading at a place with its tolerance, or why there is none.
pub(crate) fn show_reading<K: Sample>(
    rt: &HostRuntime,
    x: i32,
    y: i32,
    answer: &Result<(K, u32), PanelFault>,
) -> io::Result<()> {
    print!(rt; "    at ({x}, {y}): ")?;
    match answer {
        Ok((reading, tolerance)) => {
            show_sample(rt, reading)?;
            println!(rt; ", tolerance {tolerance}")
        }
        Err(fault) => show_refusal(rt, *fault),
    }
}

// The number of a refusal, and why.
pub(crate) fn show_refusal(rt: &HostRuntime, fault: PanelFault) -> io::Result<()> {
    let number = fault.number();
    println!(rt; "refused {number}: {fault}")
}
