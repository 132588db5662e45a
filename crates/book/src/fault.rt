// Why a book cannot be read, or a record not written into one.
#[derive(Clone, Copy, PartialEq, Eq, Debug)]
pub enum BookFault {
    // Fewer data bits are handed in than the record's length.
    Data,
    // A book has 1 to 2,048 slots of 32 bytes.
    Size,
    // The slot's link leads to no slot.
    Link { slot: u16 },
    // The chain returns to a slot: it does not end where every slot may have been passed.
    Ring { slot: u16 },
    // The slot's record is of no kind.
    Kind { slot: u16 },
    // The slot's record has more data bits than a slot holds.
    Long { slot: u16 },
    // No slot is free for one more record.
    Full,
}
