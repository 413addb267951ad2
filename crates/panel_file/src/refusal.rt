// Why a panel file is refused: the fault, the section that it stands in, and the byte offset of its field.
ghost use Rattle.std.specs.Prelude.{◌≡◌};
ghost use Rattle.panel_file.specs.Refusal.{fault_number, section_number, fill_number};
ghost use Rattle.panel_file.specs.declared.refusal.FillFault.TheVariants.{File};

use thiserror::Error;

// What is wrong with a field, and what its file's author can do about it.
#[derive(Clone, Copy, PartialEq, Eq, Debug, Error)]
pub enum FileFault {
    #[error("the file ends before this field is whole")]
    EndsEarly = 11,
    #[error("this count does not fit: 3 sizes, rows times columns samples, a name of at most 40")]
    WrongCount = 12,
    #[error("a sample has one part, a height, or three, a point")]
    WrongParts = 13,
    #[error("rows and columns are 2 to 64 each")]
    WrongSize = 14,
    #[error("this part lies beyond 100,000 micrometres either way")]
    PartBeyond = 15,
    #[error("the panel is complete, and bytes are left over")]
    BytesLeftOver = 16,
    #[error("a name has printable characters of ASCII only")]
    WrongNameByte = 17,
}

#[derive(Clone, Copy, PartialEq, Eq, Debug)]
pub enum Section {
    Sizes = 1,
    Samples = 2,
    Name = 3,
}

#[derive(Clone, Copy, PartialEq, Eq, Debug, Error)]
#[error("refused {}, section {}, byte {offset}", .fault.number(), .section.number())]
pub struct FileRefusal {
    pub fault: FileFault,
    pub section: Section,
    // Of the field's first byte, from 0 at the start of the file.
    pub offset: usize,
}

// Why a grid is not filled: the file's author or the host is the cause.
#[derive(Clone, Copy, PartialEq, Eq, Debug, Error)]
pub enum FillFault {
    #[error("{0}")]
    File(FileRefusal),
    #[error("the grid has another length")]
    GridLength,
}

impl FileFault {
    pub fn number(self) -> u8
        ensures { result ≡ fault_number self }
    {
        self as u8
    }
}

impl Section {
    pub fn number(self) -> u8
        ensures { result ≡ section_number self }
    {
        self as u8
    }
}

impl FillFault {
    pub fn number(self) -> u8
        ensures { result ≡ fill_number self }
    {
        // A match, since variants that hold something have no discriminants to cast.
        match self {
            FillFault::File(refusal) => refusal.fault.number(),
            FillFault::GridLength => 41,
        }
    }
}

// By hand: a derived `From` says nothing of the variant that `?` makes, and clauses name it.
impl From<FileRefusal> for FillFault {
    ghost from_gives = { λ refusal fault. fault ≡ File refusal };

    fn from(refusal: FileRefusal) -> FillFault {
        FillFault::File(refusal)
    }
}
