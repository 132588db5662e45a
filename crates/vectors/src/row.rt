// The rows of the table.
use report::{Cipher, Kind, Vector, unhex};
use std::alloc::{AllocError, Global};

#[derive(Clone, Copy)]
pub(crate) struct Row<'a> {
    pub(crate) kind: Kind,
    pub(crate) cipher: Cipher,
    key: &'a str,
    bits: usize,
    message: &'a str,
    expected: &'a str,
}

impl<'a> Row<'a> {
    // A row's fields; none where one is missing or is not what it should be.
    pub(crate) fn read(line: &'a str) -> Option<Row<'a>> {
        let mut fields = line.split_whitespace();
        Some(Row {
            kind: fields.next()?.parse().ok()?,
            cipher: fields.next()?.parse().ok()?,
            key: digits(fields.next()?),
            bits: fields.next()?.parse().ok()?,
            message: digits(fields.next()?),
            expected: fields.next()?,
        })
    }

    // Whether the answer is the expected one.
    pub(crate) fn matches(&self, alloc: Global) -> Result<bool, AllocError> {
        let Some(key) = unhex(alloc, self.key)? else {
            return Ok(false);
        };
        let Some(message) = unhex(alloc, self.message)? else {
            return Ok(false);
        };
        let vector = Vector {
            kind: self.kind,
            cipher: self.cipher,
            key: &key,
            bits: self.bits,
            message: &message,
        };
        let answer = vector.answer(alloc)?;
        Ok(answer.is_some_and(|answer| answer.as_str() == self.expected))
    }
}

// The hex digits of a field; '-' stands for none.
fn digits(field: &str) -> &str {
    if field == "-" { "" } else { field }
}
