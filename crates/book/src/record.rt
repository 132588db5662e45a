// A record of a book.
use crate::Edit;

// An edit in its slot. Its data are a part of the book: the bytes that its bits need.
#[derive(Clone, Copy)]
pub struct Record<'a> {
    pub slot: u16,
    pub edit: Edit<'a>,
}
