// What is shown of a line: the solver's answer, its residuals and its grade, or why the line is refused.
use crate::words::{TextFault, numbers_of};
use line::elimination::Elimination;
use line::residual::residual_at;
use line::solver::{LineSolver, SolveFault};
use std::io;
use std::str::from_utf8;
use thiserror::Error;

// The longest text that is taken, in bytes.
pub(crate) const LONGEST_TEXT: usize = 4096;

// The longest word that is shown, in bytes.
const LONGEST_WORD: usize = 40;

// Why a source gives no text.
#[derive(Debug, Drop, Error)]
enum SourceFault {
    #[error("cannot be read")]
    Unread,
    #[error("longer than {} bytes", LONGEST_TEXT)]
    Long,
    #[error("holds bytes that are no text")]
    NoText,
}

fn text_of(source: &io::Result<Vec<u8>>) -> Result<&str, SourceFault> {
    let bytes = source.as_ref().map_err(|_| SourceFault::Unread)?;
    if bytes.len() > LONGEST_TEXT {
        return Err(SourceFault::Long);
    }
    from_utf8(bytes.as_slice()).map_err(|_| SourceFault::NoText)
}

// A text that was read under its name, or that it could not be read.
pub(crate) fn show_text(
    rt: &HostRuntime,
    name: &str,
    source: io::Result<Vec<u8>>,
) -> anyhow::Result<()> {
    match text_of(&source) {
        Ok(text) => show_words(rt, name, text),
        Err(fault) => Ok(println!(rt; "{name}: {fault}")?),
    }
}

// The line that a text holds, or the word that is no number.
fn show_words(rt: &HostRuntime, name: &str, text: &str) -> anyhow::Result<()> {
    match numbers_of(rt.alloc(), text) {
        Ok(numbers) => show_line(rt, name, numbers.as_slice()),
        Err(fault @ TextFault::Word(place)) => {
            print!(rt; "{name}: {fault}")?;
            Ok(show_bad_word(rt, place, text)?)
        }
        Err(fault) => Err(fault.into()),
    }
}

// The word itself where it is short, and the end of the line.
fn show_bad_word(rt: &HostRuntime, place: usize, text: &str) -> io::Result<()> {
    if let Some(word) = text.split_whitespace().nth(place.saturating_sub(1)) {
        if word.len() <= LONGEST_WORD {
            print!(rt; ": {word:?}")?;
        }
    }
    println!(rt; "")
}

// A line and what the solver makes of it.
pub(crate) fn show_line(rt: &HostRuntime, name: &str, line: &[i64]) -> anyhow::Result<()> {
    show_numbers(rt, name, line)?;
    let mut answer = vec![in rt.alloc(); 0; line.len()]?;
    match Elimination.solve(line, answer.as_mut_slice()) {
        Ok(()) => show_answer(rt, line, answer.as_slice())?,
        Err(fault) => show_refusal(rt, fault)?,
    }
    Ok(())
}

fn show_numbers(rt: &HostRuntime, name: &str, numbers: &[i64]) -> io::Result<()> {
    print!(rt; "{name}:")?;
    for number in numbers {
        print!(rt; " {number}")?;
    }
    println!(rt; "")
}

fn show_answer(rt: &HostRuntime, line: &[i64], answer: &[i64]) -> io::Result<()> {
    let grade = Elimination::GRADE;
    show_numbers(rt, "  answer", answer)?;
    print!(rt; "  residuals:")?;
    for place in 1..=line.len() {
        if let Some(residual) = residual_at(answer, line, place) {
            print!(rt; " {residual}")?;
        }
    }
    println!(rt; ", grade {grade}")
}

fn show_refusal(rt: &HostRuntime, fault: SolveFault) -> io::Result<()> {
    let number = fault.number();
    match fault {
        SolveFault::Beyond(place) => println!(rt; "  refused {number} at place {place}: {fault}"),
        _ => println!(rt; "  refused {number}: {fault}"),
    }
}
