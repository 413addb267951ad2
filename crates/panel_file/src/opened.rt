// Opening a panel file: all of its checks, and what it says of itself.
ghost use Rattle.std.specs.Prelude.{◌≡◌};
ghost use Rattle.panel_file.specs.Laws.{OpensExactly, OneEncoding, Enough};
ghost use Rattle.panel_file.specs.Open.{shown, open_result};

use crate::kind::Kind;
use crate::refusal::FileRefusal;
use crate::section::{Shape, name, samples, sizes};
use grid::size::GridSize;

// A file that passed all checks; the name is a part of the file.
#[derive(Clone, Copy, Debug)]
pub struct PanelFile<'a> {
    pub size: GridSize,
    pub kind: Kind,
    pub name: &'a [u8],
}

// All checks, section by section, and what the sections say.
fn checked(file: &[u8]) -> Result<PanelFile<'_>, FileRefusal>
    ensures { shown result ≡ open_result file.now }
{
    let shape = sizes(file)?;
    let end = samples(file, shape)?;
    let name = name(file, end)?;
    let Shape { size, kind } = shape;
    Ok(PanelFile { size, kind, name })
}

// Any bytes: what they say as a panel file, or the first field that is refused.
pub fn open(file: &[u8]) -> Result<PanelFile<'_>, FileRefusal>
    ensures answer { shown result ≡ open_result file.now }
    ensures exact { OpensExactly file.now (shown result) }
    ensures one_content { OneEncoding }
{
    checked(file)
}

// The longest file: 64 by 64 points and a name of 40 bytes.
fn longest() -> usize
    ensures { result ≡ 49201 }
{
    7 + 64 * 64 * 3 * 4 + 2 + 40
}

// How many bytes of a file are enough to open it, however long it is: one more than the longest has.
pub fn enough() -> usize
    ensures value { result ≡ 49202 }
    ensures alike { Enough result }
{
    longest() + 1
}
