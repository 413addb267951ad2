// The three sections of a panel file, checked field by field in the order of their bytes.
ghost use Rattle.std.specs.Prelude.{◌≡◌, ◌+◌, ◌*◌, ℕ, Bool, List, Ok, Err, MatchResult};
ghost use Rattle.std.specs.Result.{result_and};
ghost use Rattle.panel_file.specs.declared.field.Field.{Field};
ghost use Rattle.panel_file.specs.declared.refusal.FileFault.{FileFault};
ghost use Rattle.panel_file.specs.Field.{byte_at, part_at, field};
ghost use Rattle.panel_file.specs.Walk.{step_over, walk_over};
ghost use Rattle.panel_file.specs.Kind.{kind_parts};
ghost use Rattle.panel_file.specs.Layout.{size_fits, part_fits, printable, sizes_answer, size_of, parts_of, samples_answer, samples_end, name_answer, name_at};

use crate::field::Field;
use crate::kind::Kind;
use crate::refusal::{FileFault, FileRefusal, Section};
use grid::size::GridSize;

// The offsets of the fields before the samples, and of the first sample.
const SIZES_COUNT_AT: usize = 0;

const ROWS_AT: usize = 2;

const COLUMNS_AT: usize = 3;

pub(crate) const PARTS_AT: usize = 4;

const SAMPLES_COUNT_AT: usize = 5;

pub(crate) const SAMPLES_AT: usize = 7;

// What section 1 says: the size of the grid, and the kind of its samples.
#[derive(Clone, Copy)]
pub(crate) struct Shape {
    pub(crate) size: GridSize,
    pub(crate) kind: Kind,
}

impl Shape {
    // How many parts all samples have together.
    fn parts(self) -> usize
        ensures { result ≡ self.size.rows * self.size.columns * kind_parts self.kind }
    {
        self.size.count() * usize::from(self.kind.parts())
    }
}

// So many fields, one after the other: where each step checks one of them, the walk checks them all. The answer is the field after
// the last.
fn walk<F: Fn(Field) -> Result<Field, FileRefusal>>(
    first: Field,
    count: usize,
    step: F,
) -> Result<Field, FileRefusal>
    requires { F.IsAlwaysCallable step }
    ensures { (file : List ℕ) (fault : FileFault) (width : ℕ) (holds : ℕ → Bool) → ((here : Field) (r : _) → F.post step here r → r ≡ step_over file fault width holds here) → result ≡ walk_over file fault width holds count first }
{
    (0..count).try_fold(first, |here, _| step(here))
}

// A number of rows or of columns.
fn size_at(file: &[u8], at: usize) -> Result<u8, FileRefusal>
    ensures { result ≡ result_and (field file.now Section.Sizes FileFault.WrongSize 1 (λ at. size_fits (byte_at file.now at)) at) (Ok (byte_at file.now at)) }
{
    let field = Section::Sizes.at(at);
    let size = field.byte(file)?;
    field.require((2..=64).contains(&size), FileFault::WrongSize)?;
    Ok(size)
}

// The sizes of the grid, and the kind of its samples.
pub(crate) fn sizes(file: &[u8]) -> Result<Shape, FileRefusal>
    ensures { MatchResult result
        (λ shape. (sizes_answer file.now ≡ Ok tt) × (shape.size ≡ size_of file.now) × (kind_parts shape.kind ≡ parts_of file.now))
        (λ refusal. sizes_answer file.now ≡ Err refusal) }
{
    let first = Section::Sizes.at(SIZES_COUNT_AT);
    first.require(first.count(file)? == 3, FileFault::WrongCount)?;
    let rows = size_at(file, ROWS_AT)?;
    let columns = size_at(file, COLUMNS_AT)?;
    let parts = Section::Sizes.at(PARTS_AT);
    let kind = Kind::try_from(parts.byte(file)?).map_err(|fault| parts.refused(fault))?;
    Ok(Shape {
        size: GridSize { rows, columns },
        kind,
    })
}

// One part of a sample is within its range; the answer is the field after it.
fn part_within(file: &[u8], here: Field) -> Result<Field, FileRefusal>
    ensures { result ≡ step_over file.now FileFault.PartBeyond 4 (λ at. part_fits (part_at file.now at)) here }
{
    let part = here.part(file)?;
    here.require(part.unsigned_abs() <= 100_000, FileFault::PartBeyond)?;
    Ok(here.after(4))
}

// The samples; the answer is the offset at which they end.
pub(crate) fn samples(file: &[u8], shape: Shape) -> Result<usize, FileRefusal>
    ensures { result ≡ result_and (samples_answer file.now shape.size (kind_parts shape.kind)) (Ok (samples_end shape.size (kind_parts shape.kind))) }
{
    let first = Section::Samples.at(SAMPLES_COUNT_AT);
    let count = first.count(file)?;
    first.require(
        usize::from(count) == shape.size.count(),
        FileFault::WrongCount,
    )?;
    let end = walk(
        first.after(2),
        shape.parts(),
        |here| part_within(file, here),
    )?;
    Ok(end.at)
}

// One byte of the name is a printable character; the answer is the field after it.
fn name_byte(file: &[u8], here: Field) -> Result<Field, FileRefusal>
    ensures { result ≡ step_over file.now FileFault.WrongNameByte 1 (λ at. printable (byte_at file.now at)) here }
{
    let byte = here.byte(file)?;
    here.require((32..=126).contains(&byte), FileFault::WrongNameByte)?;
    Ok(here.after(1))
}

// The name, whose count stands at `at`, and the end of the file after it.
pub(crate) fn name(file: &[u8], at: usize) -> Result<&[u8], FileRefusal>
    ensures { MatchResult result
        (λ name. (name_answer file.now at ≡ Ok tt) × (name.now ≡ name_at file.now at))
        (λ refusal. name_answer file.now at ≡ Err refusal) }
{
    let first = Section::Name.at(at);
    let count = first.count(file)?;
    first.require(count <= 40, FileFault::WrongCount)?;
    let begin = first.after(2);
    let end = walk(begin, usize::from(count), |here| name_byte(file, here))?;
    end.require(file.len() == end.at, FileFault::BytesLeftOver)?;
    Ok(&file[begin.at..])
}
