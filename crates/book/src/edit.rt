// An edit as it is handed to a writer, and as a record has it.
ghost use Rattle.book.specs.Edits.{plain, Laid};

use crate::BookFault;
use crate::fields::{Fields, needed};
use crate::kind::Kind;

// An edit, with the bytes that its bits come from.
#[derive(Clone, Copy)]
pub enum Edit<'a> {
    // Adds the first `bits` bits of the data.
    Add {
        bits: u32,
        data: &'a [u8],
    },
    // Cuts the last `bits` bits.
    Cut {
        bits: u32,
    },
    // Replaces `bits` bits from `position` on.
    Put {
        position: u32,
        bits: u32,
        data: &'a [u8],
    },
    // Asks for the tag's first `bits` bits; 0 is kept as it is.
    Tag {
        bits: u32,
    },
}

impl<'a> Edit<'a> {
    // Its fields; refused where fewer bits are handed in than the length says.
    pub(crate) fn fields(self) -> Result<Fields<'a>, BookFault>
        ensures { Laid (plain self.entry) result }
    {
        let none: &[u8] = &[];
        let (kind, position, bits, data) = match self {
            Edit::Add { bits, data } => (Kind::Add, 0, bits, needed(bits, data)),
            Edit::Cut { bits } => (Kind::Cut, 0, bits, Some(none)),
            Edit::Put {
                position,
                bits,
                data,
            } => (Kind::Put, position, bits, needed(bits, data)),
            Edit::Tag { bits } => (Kind::Tag, 0, bits, Some(none)),
        };
        Ok(Fields {
            kind,
            position,
            bits,
            data: data.ok_or(BookFault::Data)?,
        })
    }
}
