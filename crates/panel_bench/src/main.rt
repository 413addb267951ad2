// The work that the benchmark counts and times: `panel_bench WORK KIND TIMES`, WORK being fit or read, KIND heights or points.
// It prints a check sum, so that no work can be left out.
#![tactic(auto)]

mod work;

use anyhow::anyhow;
use grid::kinds::{Height, Point};
use std::env;
use work::{Work, done};

// The work that a word names.
fn work_of(word: &str) -> anyhow::Result<Work> {
    match word {
        "fit" => Ok(Work::Fit),
        "read" => Ok(Work::Read),
        _ => Err(anyhow!("the work is fit or read")),
    }
}

fn run(rt: &HostRuntime) -> anyhow::Result<i64> {
    let mut args = env::args(rt)?.skip(1);
    let (Some(work), Some(kind), Some(times)) = (args.next(), args.next(), args.next()) else {
        return Err(anyhow!("usage: panel_bench fit|read heights|points TIMES"));
    };
    let work = work_of(work.as_str())?;
    let times = times.as_str().parse::<u32>()?;
    match kind.as_str() {
        "heights" => Ok(done(&mut [Height::default(); 4096], work, times)),
        "points" => Ok(done(&mut [Point::default(); 4096], work, times)),
        _ => Err(anyhow!("the kind is heights or points")),
    }
}

fn main(rt: HostRuntime) -> anyhow::Result<()> {
    let sum = run(&rt)?;
    println!(rt; "{sum}")?;
    Ok(())
}
