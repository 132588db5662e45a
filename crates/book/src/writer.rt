// How far a book is written.
ghost use Rattle.std.specs.Prelude.{◌<◌};

// The last slot that a record was put into; 0 at first. The book is handed to each call, and not kept here, so that
// each call's contract can say what becomes of its bytes.
#[derive(Drop)]
pub struct Writer {
    pub(crate) last: u16,
    ghost few: { last < 2048 },
}
