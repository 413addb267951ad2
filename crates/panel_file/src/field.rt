// The fields of a panel file, each read only where the file has all of its bytes.
ghost use Rattle.std.specs.Prelude.{◌≡◌, ◌+◌, ◌^◌, ◌<◌, take, drop, Ok};
ghost use Rattle.std.specs.Result.{result_and};
ghost use Rattle.grid.specs.Checks.{check as checked};
ghost use Rattle.panel_file.specs.Field.{byte_at, count_at, part_at, present, refused};

use crate::refusal::{FileFault, FileRefusal, Section};
use grid::checks::check;

// Where a field stands: its section, and the offset of its first byte.
#[derive(Clone, Copy)]
pub(crate) struct Field {
    pub(crate) section: Section,
    pub(crate) at: usize,
}

impl Section {
    // The field of the section at an offset.
    pub(crate) fn at(self, at: usize) -> Field
        ensures { result ≡ record { section = self; at = at } }
    {
        Field { section: self, at }
    }
}

impl Field {
    pub(crate) fn refused(self, fault: FileFault) -> FileRefusal
        ensures { result ≡ refused fault self.section self.at }
    {
        FileRefusal {
            fault,
            section: self.section,
            offset: self.at,
        }
    }

    // The field is refused unless `holds`.
    pub(crate) fn require(self, holds: bool, fault: FileFault) -> Result<(), FileRefusal>
        ensures { result ≡ checked holds (refused fault self.section self.at) }
    {
        check(holds, self.refused(fault))
    }

    // The N bytes of the field.
    fn bytes<const N: usize>(self, file: &[u8]) -> Result<[u8; N], FileRefusal>
        ensures { result ≡ result_and (present file.now self.section N self.at) (Ok (take N (drop self.at file.now))) }
    {
        let early = self.refused(FileFault::EndsEarly);
        let rest = file.get(self.at..).ok_or(early)?;
        rest.first_chunk().copied().ok_or(early)
    }

    // A field of one byte.
    pub(crate) fn byte(self, file: &[u8]) -> Result<u8, FileRefusal>
        ensures { result ≡ result_and (present file.now self.section 1 self.at) (Ok (byte_at file.now self.at)) }
    {
        let [byte] = self.bytes::<1>(file)?;
        Ok(byte)
    }

    // A count: two bytes, low byte first.
    pub(crate) fn count(self, file: &[u8]) -> Result<u16, FileRefusal>
        ensures { result ≡ result_and (present file.now self.section 2 self.at) (Ok (count_at file.now self.at)) }
    {
        Ok(u16::from_le_bytes(self.bytes(file)?))
    }

    // A field that is a part.
    pub(crate) fn part(self, file: &[u8]) -> Result<i32, FileRefusal>
        ensures { result ≡ result_and (present file.now self.section 4 self.at) (Ok (part_at file.now self.at)) }
    {
        Ok(part_of(self.bytes(file)?))
    }

    // The field that stands so many bytes after this one.
    pub(crate) fn after(self, width: usize) -> Field
        requires { self.at + width < 2 ^ 64 }
        ensures { result ≡ record { section = self.section; at = self.at + width } }
    {
        Field {
            at: self.at + width,
            ..self
        }
    }
}

// What four bytes say as a part, low byte first.
pub(crate) fn part_of(bytes: [u8; 4]) -> i32
    ensures { result ≡ part_at bytes 0 }
{
    i32::from_le_bytes(bytes)
}
