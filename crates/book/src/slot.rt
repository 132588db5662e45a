// A slot of a book, and its fields, high byte first.
ghost use Rattle.std.specs.Prelude.{◌≡◌, ◌+◌, ◌≤◌, ◌↔◌, take, drop, IsOk, IfOk, IfErr};
ghost use Rattle.book.specs.Slots.{position as position_at, bits as bits_at, data_of};
ghost use Rattle.book.specs.Views.{slot_entry, looked};
ghost use Rattle.book.specs.Tests.{follower};

use crate::fields::needed;
use crate::kind::Kind;
use crate::{BookFault, Edit, Record};

pub const SLOT_BYTES: usize = 32;

// Where a slot's fields begin.
const LINK: usize = 0;

pub(crate) const KIND: usize = 2;

pub(crate) const POSITION: usize = 4;

pub(crate) const LENGTH: usize = 8;

pub(crate) const DATA: usize = 12;

pub(crate) const DATA_BYTES: usize = SLOT_BYTES - DATA;

// A slot of a book, by its number.
#[derive(Clone, Copy)]
pub(crate) struct Slot<'a> {
    pub(crate) number: u16,
    pub(crate) bytes: &'a [u8; SLOT_BYTES],
}

impl<'a> Slot<'a> {
    // The bytes of a field that begins at `start`.
    fn field<const N: usize>(self, start: usize) -> [u8; N]
        requires { start + N ≤ 32 }
        ensures { result ≡ take N (drop start self.entry.bytes.now) }
    {
        let bytes = self.bytes;
        let mut field = [0; N];
        field.copy_from_slice(&bytes[start..start + N]);
        field
    }

    // The slot that the link leads to, unless it ends the chain.
    pub(crate) fn link(self) -> Option<u16>
        ensures { result ≡ follower self.entry.bytes.now 0 }
    {
        match u16::from_be_bytes(self.field(LINK)) {
            0 => None,
            next => Some(next),
        }
    }

    fn position(self) -> u32
        ensures { result ≡ position_at self.entry.bytes.now 0 }
    {
        u32::from_be_bytes(self.field(POSITION))
    }

    fn bits(self) -> u32
        ensures { result ≡ bits_at self.entry.bytes.now 0 }
    {
        u32::from_be_bytes(self.field(LENGTH))
    }

    // The whole bytes that so many bits need; refused where the slot does not hold them.
    fn data(self, bits: u32) -> Result<&'a [u8], BookFault>
        ensures holds { IsOk result ↔ (bits ≤ 160) }
        ensures part { IfOk result (λ part. part.now ≡ data_of self.entry.bytes.now 0 bits) }
        ensures long { IfErr result (λ fault. fault ≡ BookFault.Long self.entry.number) }
    {
        let bytes = self.bytes;
        needed(bits, &bytes[DATA..]).ok_or(BookFault::Long { slot: self.number })
    }

    // The record that the slot holds: refused for its kind, then for its length.
    pub(crate) fn record(self) -> Result<Record<'a>, BookFault>
        ensures { looked result ≡ slot_entry self.entry }
    {
        let slot = self.number;
        let Ok(kind) = Kind::try_from(self.bytes[KIND]) else {
            return Err(BookFault::Kind { slot });
        };
        let bits = self.bits();
        let edit = match kind {
            Kind::Add => Edit::Add {
                bits,
                data: self.data(bits)?,
            },
            Kind::Cut => Edit::Cut { bits },
            Kind::Put => Edit::Put {
                position: self.position(),
                bits,
                data: self.data(bits)?,
            },
            Kind::Tag => Edit::Tag { bits },
        };
        Ok(Record { slot, edit })
    }
}
