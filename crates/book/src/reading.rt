// Reading a book: every link and every record is looked at once, then the records can be walked through.
ghost use Rattle.std.specs.Prelude.{◌≡◌, ◌<◌, length, IfOk};
ghost use Rattle.book.specs.Slots.{slots};
ghost use Rattle.book.specs.Reading.{reading, Inside};
ghost use Rattle.book.specs.Views.{seen, remaining};

use crate::book::Book;
use crate::links::Links;
use crate::{BookFault, Records};

// Reads a book: its records in chain order, or why it is refused.
pub fn read(book: &[u8]) -> Result<Records<'_>, BookFault>
    ensures seen { seen result ≡ reading book.now }
    ensures inside { IfOk result (λ records. Inside (slots book.now) (remaining records)) }
    ensures few { IfOk result (λ records. length (remaining records) < 2048) }
{
    let links = Links::follow(Book::new(book)?)?;
    for slot in links {
        slot.record()?;
    }
    Ok(Records { links })
}
