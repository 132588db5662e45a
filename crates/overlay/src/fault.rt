// Why a call of an overlay, or a booking, is refused.
use engine::EngineFault;

#[derive(Clone, Copy, PartialEq, Eq, Debug)]
pub enum OverlayFault {
    // The memory is over 65,536 bytes, or under the bits standing.
    Memory,
    // Fewer bits are handed in than are to be written.
    Edit,
    // More bits are to be cut, or others replaced, than stand.
    Range,
    // The memory has no room for the bits that are to be added.
    Room,
    // No tag has that many bytes.
    TagLength,
    // There is no such block, or it is a short last one.
    BlockNumber,
    // The tag is not that of the bits received.
    WrongTag,
    Engine(EngineFault),
}

#[derive(Clone, Copy, PartialEq, Eq, Debug)]
pub enum BookingFault {
    // There are sixteen accounts, 0 to 15.
    NoAccount,
    // The account's total would pass the largest number.
    Full,
}
