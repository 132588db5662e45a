// Why a call of a history is refused.
use overlay::{BookingFault, OverlayFault};

#[derive(Clone, Copy, PartialEq, Eq, Debug)]
pub enum CallFault {
    Overlay(OverlayFault),
    Booking(BookingFault),
}
