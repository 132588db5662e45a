// A chain of slots, link by link.
ghost use Rattle.std.specs.Prelude.{◌≡◌, ◌<◌, true, is_ok};
ghost use Rattle.book.specs.Slots.{slots};
ghost use Rattle.book.specs.Reading.{onwards};

use crate::BookFault;
use crate::book::Book;
use crate::slot::Slot;

// The slots behind `slot`, one after the other: a chain that is known to end.
#[derive(Clone, Copy)]
pub(crate) struct Links<'a> {
    pub(crate) book: Book<'a>,
    pub(crate) slot: u16,
    ghost inside: { slot < slots book.bytes.now },
    ghost ends: { is_ok (onwards book.bytes.now slot) ≡ true },
}

impl<'a> Links<'a> {
    ghost use Rattle.book.specs.Views.{Begun};

    // Follows the links from slot 0 on: refused where one leads to no slot, and where the chain does not end in time.
    pub(crate) fn follow(book: Book<'a>) -> Result<Self, BookFault>
        ensures { Begun book.entry.bytes.now result }
    {
        let mut slot = 0;
        let mut passed = 1..book.slots();
        while let Some(next) = book.next(slot)? {
            passed.next().ok_or(BookFault::Ring { slot })?;
            slot = next;
        }
        Ok(Links { book, slot: 0 })
    }
}

impl<'a> Iterator for Links<'a> {
    ghost use Rattle.std.specs.Prelude.{length};
    ghost use Rattle.std.specs.Iterator.{at_most};
    ghost use Rattle.book.specs.Reading.{onwards};
    ghost use Rattle.book.specs.Views.{Led, slots_in};

    type Item = Slot<'a>;

    ghost next_gives = { Led };

    ghost remaining = { λ s. at_most (length (slots_in (onwards s.book.bytes.now s.slot))) };

    fn next(&mut self) -> Option<Slot<'a>> {
        let next = self.book.link(self.slot)?;
        self.slot = next;
        Some(self.book.slot(next))
    }
}
