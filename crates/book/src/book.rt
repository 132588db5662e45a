// The bytes of a book whose size was looked at.
ghost use Rattle.std.specs.Prelude.{◌≡◌, true};
ghost use Rattle.book.specs.Slots.{is_book};

use crate::slot::Slot;
use crate::{BookFault, SLOT_BYTES};

const MOST_SLOTS: usize = 2048;

// 1 to 2,048 slots of 32 bytes.
#[derive(Clone, Copy)]
pub(crate) struct Book<'a> {
    pub(crate) bytes: &'a [u8],
    ghost sized: { is_book bytes.now ≡ true },
}

impl<'a> Book<'a> {
    ghost use Rattle.std.specs.Prelude.{◌≡◌, ◌<◌};
    ghost use Rattle.book.specs.Slots.{slots};
    ghost use Rattle.book.specs.Tests.{Checked, IsSlot, follower, led};

    // Refused where the bytes are no book.
    pub(crate) fn new(bytes: &'a [u8]) -> Result<Self, BookFault>
        ensures { Checked bytes.now result }
    {
        let (slots, rest) = bytes.as_chunks::<SLOT_BYTES>();
        if !rest.is_empty() || slots.is_empty() || slots.len() > MOST_SLOTS {
            return Err(BookFault::Size);
        }
        Ok(Book { bytes })
    }

    // How many slots there are.
    pub(crate) fn slots(self) -> u16
        ensures { result ≡ slots self.entry.bytes.now }
    {
        (self.bytes.len() / SLOT_BYTES) as u16
    }

    pub(crate) fn slot(self, number: u16) -> Slot<'a>
        requires { number < slots self.bytes.now }
        ensures { IsSlot self.entry.bytes.now number result }
    {
        let (slots, _) = self.bytes.as_chunks();
        Slot {
            number,
            bytes: &slots[number as usize],
        }
    }

    // Where a slot's link leads, unless it ends the chain.
    pub(crate) fn link(self, slot: u16) -> Option<u16>
        requires { slot < slots self.bytes.now }
        ensures { result ≡ follower self.entry.bytes.now slot }
    {
        self.slot(slot).link()
    }

    // The slot behind a slot, unless the chain ends there; refused where the link leads to no slot.
    pub(crate) fn next(self, slot: u16) -> Result<Option<u16>, BookFault>
        requires { slot < slots self.bytes.now }
        ensures { result ≡ led self.entry.bytes.now slot }
    {
        match self.link(slot) {
            Some(next) if next >= self.slots() => Err(BookFault::Link { slot }),
            link => Ok(link),
        }
    }
}
