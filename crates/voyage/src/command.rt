// The calls as they are written, a line each.
use report::unhex;
use std::alloc::{AllocError, Global};
use std::num::ParseIntError;

// What a line asks for.
#[derive(Clone, Copy)]
pub(crate) enum Command<'a> {
    // `add HEX [BITS]`
    Add(Edit<'a>),
    // `cut BITS`
    Cut { bits: u32 },
    // `put POSITION HEX [BITS]`
    Put { position: u32, edit: Edit<'a> },
    // `tag BITS`
    Tag { bits: u32 },
    // `book SLIP ACCOUNT`
    Book { slip: usize, account: u8 },
}

// The bits that a call writes, as hex, and how many of them where that is written.
#[derive(Clone, Copy)]
pub(crate) struct Edit<'a> {
    hex: &'a str,
    bits: Option<u32>,
}

// A word is missing, is too much or is not what it should be.
#[derive(Clone, Copy)]
pub(crate) struct BadLine;

impl From<ParseIntError> for BadLine {
    fn from(_: ParseIntError) -> Self {
        BadLine
    }
}

impl<'a> TryFrom<&'a str> for Command<'a> {
    type Error = BadLine;

    fn try_from(line: &'a str) -> Result<Self, BadLine> {
        let mut words = line.split_whitespace();
        let name = words.next().ok_or(BadLine)?;
        let first = words.next().ok_or(BadLine)?;
        match (name, words.next(), words.next(), words.next()) {
            ("add", bits, None, None) => Ok(Command::Add(Edit::try_from((first, bits))?)),
            ("cut", None, None, None) => Ok(Command::Cut {
                bits: first.parse()?,
            }),
            ("put", Some(hex), bits, None) => Ok(Command::Put {
                position: first.parse()?,
                edit: Edit::try_from((hex, bits))?,
            }),
            ("tag", None, None, None) => Ok(Command::Tag {
                bits: first.parse()?,
            }),
            ("book", Some(account), None, None) => Ok(Command::Book {
                slip: first.parse()?,
                account: account.parse()?,
            }),
            _ => Err(BadLine),
        }
    }
}

impl<'a> TryFrom<(&'a str, Option<&str>)> for Edit<'a> {
    type Error = BadLine;

    fn try_from((hex, bits): (&'a str, Option<&str>)) -> Result<Self, BadLine> {
        Ok(Edit {
            hex,
            bits: bits.map(|bits| bits.parse()).transpose()?,
        })
    }
}

impl Edit<'_> {
    // The bytes, if the hex spells any.
    pub(crate) fn bytes(&self, alloc: Global) -> Result<Option<Vec<u8>>, AllocError> {
        unhex(alloc, self.hex)
    }

    // As many bits as are written, or else all of the bytes.
    pub(crate) fn count(&self, bytes: &[u8]) -> u32 {
        self.bits.unwrap_or(u32::try_from(bytes.len().saturating_mul(8)).unwrap_or(u32::MAX))
    }
}
