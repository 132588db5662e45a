// The numbers under which faults are told.
ghost use Rattle.book.specs.Refusals.{book_refusal};

use crate::BookFault;
use engine::Numbered;

impl Numbered for BookFault {
    ghost refusal = { book_refusal };

    fn number(self) -> u32 {
        match self {
            BookFault::Data => 3,
            BookFault::Size => 10,
            BookFault::Link { .. } => 11,
            BookFault::Ring { .. } => 12,
            BookFault::Kind { .. } => 13,
            BookFault::Long { .. } => 14,
            BookFault::Full => 18,
        }
    }
}
