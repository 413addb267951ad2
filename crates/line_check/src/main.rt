// Solves lines at the limits, of every length from 2 to 64, and holds each residual to the grade.
#![tactic(auto)]

mod lines;
mod random;
mod tally;

use line::elimination::Elimination;
use line::solver::LineSolver;
use lines::random_lines;
use random::Random;
use std::io;
use tally::Tally;

// A family's name and what came of its lines.
fn show(rt: &impl Print, name: &str, tally: &Tally) -> io::Result<()> {
    println!(rt; "{name}: {tally}")
}

// The same, and the worst residual: only where exact fractions settle it beforehand.
fn show_worst(rt: &impl Print, name: &str, tally: &Tally) -> io::Result<()> {
    show(rt, name, tally)?;
    println!(rt; "  worst residual {}", tally.worst)
}

fn main(rt: HostRuntime) -> io::Result<()> {
    let grade = Elimination::GRADE;
    println!(rt; "elimination, grade {grade}, lines of 2 to 64 numbers up to 5000000 either way")?;
    show_worst(&rt, "constant", &lines::constant())?;
    show_worst(&rt, "alternating", &lines::alternating())?;
    show_worst(&rt, "single peak", &lines::single_peak())?;
    let mut random = Random::new(1);
    let signs = random_lines(&mut random, Random::extreme);
    show(&rt, "random signs", &signs)?;
    let numbers = random_lines(&mut random, Random::number);
    show(&rt, "random numbers", &numbers)
}
