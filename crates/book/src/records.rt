// The records of a book, one after the other.
ghost use Rattle.std.specs.Prelude.{◌≡◌, true, is_ok};
ghost use Rattle.book.specs.Reading.{behind};

use crate::Record;
use crate::links::Links;

// The records of a book that are still to come, in chain order. All were looked at before.
#[derive(Drop)]
pub struct Records<'a> {
    pub(crate) links: Links<'a>,
    ghost sound: { is_ok (behind links.book.bytes.now links.slot) ≡ true },
}

impl<'a> Iterator for Records<'a> {
    ghost use Rattle.std.specs.Prelude.{length};
    ghost use Rattle.std.specs.Iterator.{at_most};
    ghost use Rattle.book.specs.Views.{remaining, Gave};

    type Item = Record<'a>;

    ghost next_gives = { λ s r t. Gave (remaining s) r (remaining t) };

    ghost remaining = { λ s. at_most (length (remaining s)) };

    fn next(&mut self) -> Option<Record<'a>> {
        self.links.next()?.record().ok()
    }
}
