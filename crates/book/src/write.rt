// Writing a book, record by record.
ghost use Rattle.std.specs.Prelude.{◌≡◌, ◌+◌, ◌<◌};
ghost use Rattle.book.specs.Slots.{slots};
ghost use Rattle.book.specs.Writing.{putting, clearing};
ghost use Rattle.book.specs.Laws.{Grows, Empties, ReadsBack};
ghost use Rattle.book.specs.Edits.{plain};
ghost use Rattle.book.specs.Writers.{after, begun, linked_in};

use crate::book::Book;
use crate::slot::DATA_BYTES;
use crate::{BookFault, Edit, SLOT_BYTES, Writer};

// Fills the slot behind `last`, and links it from there. By ranges, as `as_chunks_mut` does not say what the book becomes.
fn fill_slot(book: &mut [u8], last: u16, bytes: &[u8; SLOT_BYTES])
    requires free { last + 1 < slots book.old }
    requires few { last < 2048 }
    ensures { book.new ≡ linked_in book.old last bytes.now }
{
    let from = last as usize * SLOT_BYTES;
    let slot = last + 1;
    let base = slot as usize * SLOT_BYTES;
    book[base..base + SLOT_BYTES].copy_from_slice(bytes);
    book[from..from + 2].copy_from_slice(&slot.to_be_bytes());
}

impl Writer {
    // Clears a book: no slot is taken.
    #[tactic(auto, using(crate::proofs::Laws::clear_law))]
    pub fn new(book: &mut [u8]) -> Result<Self, BookFault>
        ensures after { begun result book.new ≡ clearing book.old }
        ensures law { Empties (begun result book.new) }
    {
        Book::new(book)?;
        book.fill(0);
        Ok(Writer { last: 0 })
    }

    // Puts one record more into a book.
    pub fn put(&mut self, book: &mut [u8], edit: Edit<'_>) -> Result<(), BookFault>
        ensures after { after result self.new book.new ≡ putting book.old self.old.last (plain edit.entry) }
        ensures law { Grows book.old self.old.last (plain edit.entry) (after result self.new book.new) }
    {
        let fields = edit.fields()?;
        let slots = Book::new(book)?.slots();
        let slot = self.last + 1;
        if fields.data.len() > DATA_BYTES {
            return Err(BookFault::Long { slot });
        }
        if slot >= slots {
            return Err(BookFault::Full);
        }
        fill_slot(book, self.last, &fields.to_bytes());
        self.last = slot;
        Ok(())
    }
}

// What is put into a cleared book reads back, said of any list of edits.
pub fn edits_read_back()
    ensures { ReadsBack }
{}
