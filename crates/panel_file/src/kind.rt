// The kinds of sample that a panel file can have.
ghost use Rattle.std.specs.Prelude.{◌≡◌};
ghost use Rattle.panel_file.specs.Kind.{kind_parts, kind_with};

use crate::refusal::FileFault;

// A kind by how many parts each sample has.
#[derive(Clone, Copy, PartialEq, Eq, Debug)]
pub enum Kind {
    Heights = 1,
    Points = 3,
}

impl Kind {
    // How many parts each sample has.
    pub fn parts(self) -> u8
        ensures { result ≡ kind_parts self }
    {
        self as u8
    }
}

impl TryFrom<u8> for Kind {
    type Error = FileFault;

    ghost try_from_gives = { λ parts kind. kind ≡ kind_with parts };

    fn try_from(parts: u8) -> Result<Kind, FileFault> {
        match parts {
            1 => Ok(Kind::Heights),
            3 => Ok(Kind::Points),
            _ => Err(FileFault::WrongParts),
        }
    }
}
