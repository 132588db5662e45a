// What a record's slot holds, and its bytes.
ghost use Rattle.std.specs.Prelude.{◌≡◌, ◌*◌, ◌<◌, ◌≤◌, ◌^◌, ◌↔◌, length, take, IsSome, IfSome};
ghost use Rattle.book.specs.Slots.{bytes_for};
ghost use Rattle.book.specs.Edits.{fields_bytes};

use crate::SLOT_BYTES;
use crate::kind::Kind;
use crate::slot::{DATA, KIND, LENGTH, POSITION};

// What a record's slot holds behind the link.
#[derive(Clone, Copy)]
pub(crate) struct Fields<'a> {
    pub(crate) kind: Kind,
    pub(crate) position: u32,
    pub(crate) bits: u32,
    pub(crate) data: &'a [u8],
}

impl Fields<'_> {
    // The bytes of a slot with these fields, not linked yet.
    pub(crate) fn to_bytes(self) -> [u8; SLOT_BYTES]
        requires { length self.data.now ≤ 20 }
        ensures bytes { result ≡ fields_bytes self.entry }
        ensures position { self.entry.position < 2 ^ 32 }
        ensures bits { self.entry.bits < 2 ^ 32 }
    {
        let mut bytes = [0; SLOT_BYTES];
        bytes[KIND] = self.kind.into();
        bytes[POSITION..LENGTH].copy_from_slice(&self.position.to_be_bytes());
        bytes[LENGTH..DATA].copy_from_slice(&self.bits.to_be_bytes());
        bytes[DATA..DATA + self.data.len()].copy_from_slice(self.data);
        bytes
    }
}

// The whole bytes that so many bits need, of those at hand; none where there are fewer.
pub(crate) fn needed(bits: u32, bytes: &[u8]) -> Option<&[u8]>
    ensures enough { IsSome result ↔ (bits ≤ 8 * length bytes.now) }
    ensures part { IfSome result (λ part. part.now ≡ take (bytes_for bits) bytes.now) }
{
    bytes.get(..bits.div_ceil(8) as usize)
}
