// Filling a grid with the samples of a panel file.
ghost use Rattle.std.specs.Prelude.{◌≡◌, ◌+◌, ◌*◌, ◌≤◌, true, map, length, is_err, OnOk};
ghost use Rattle.grid.specs.Checks.{if_ok};
ghost use Rattle.panel_file.specs.Fill.{fill_answer, parts_at, samples_of};
ghost use Rattle.panel_file.specs.Laws.{FillsExactly};

use crate::field::part_of;
use crate::opened::open;
use crate::refusal::{FileFault, FillFault, Section};
use crate::section::{PARTS_AT, SAMPLES_AT};
use grid::checks::check;
use grid::sample::Sample;

// The checks of the file, then of the grid: how many parts its kind has, and how many samples it has room for. The file then has all
// samples of the grid.
fn admit(file: &[u8], parts: usize, room: usize) -> Result<(), FillFault>
    ensures answer { result ≡ fill_answer parts file.now room }
    ensures enough { OnOk result (7 + room * (parts * 4) ≤ length file.now) }
{
    let opened = open(file)?;
    Section::Sizes.at(PARTS_AT).require(
        usize::from(opened.kind.parts()) == parts,
        FileFault::WrongParts,
    )?;
    check(room == opened.size.count(), FillFault::GridLength)
}

// The sample of these bytes: every part of another sample is replaced.
fn sample_from<K: Sample>(bytes: &[u8], other: K) -> K
    requires { length bytes.now ≡ K.Sample.PARTS * 4 }
    ensures { K.Sample.parts result ≡ parts_at bytes.now K.Sample.PARTS 0 }
{
    let mut sample = other;
    let (parts, _) = bytes.as_chunks();
    for (k, part) in parts.iter().enumerate() {
        sample = sample.replace_part(k + 1, part_of(*part));
    }
    sample
}

// The samples of a file that has them, one after the other.
fn store<K: Sample>(file: &[u8], grid: &mut [K])
    requires { 7 + length grid.old * (K.Sample.PARTS * 4) ≤ length file.now }
    ensures { map K.Sample.parts grid.new ≡ samples_of file.now K.Sample.PARTS (length grid.old) }
{
    let width = K::PARTS * 4;
    // The offset is worked out: after a zip of `iter_mut` with the file's chunks a proof knows none of the elements.
    for (i, sample) in grid.iter_mut().enumerate() {
        let at = SAMPLES_AT + i * width;
        *sample = sample_from(&file[at..at + width], *sample);
    }
}

// All checks, and then the samples.
fn filled<K: Sample>(file: &[u8], grid: &mut [K]) -> Result<(), FillFault>
    ensures answer { result ≡ fill_answer K.Sample.PARTS file.now (length grid.old) }
    ensures after { map K.Sample.parts grid.new ≡ if_ok result (samples_of file.now K.Sample.PARTS (length grid.old)) (map K.Sample.parts grid.old) }
    ensures same { is_err result ≡ true → grid.new ≡ grid.old }
{
    admit(file, K::PARTS, grid.len())?;
    store(file, grid);
    Ok(())
}

// Writes the samples of a file into a grid of any kind; a refusal leaves the grid as it was.
pub fn fill<K: Sample>(file: &[u8], grid: &mut [K]) -> Result<(), FillFault>
    ensures answer { result ≡ fill_answer K.Sample.PARTS file.now (length grid.old) }
    ensures after { map K.Sample.parts grid.new ≡ if_ok result (samples_of file.now K.Sample.PARTS (length grid.old)) (map K.Sample.parts grid.old) }
    ensures same { is_err result ≡ true → grid.new ≡ grid.old }
    ensures exact { FillsExactly K.Sample.PARTS file.now result (map K.Sample.parts grid.new) }
{
    filled(file, grid)
}
