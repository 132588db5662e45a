// Overlays, received and open, and the slips and accounts for what their calls ask of the engine.
#![tactic(auto)]

mod calls;
mod fault;
mod judge;
mod ledger;
mod open;
mod received;
mod recovery;
mod refusal;
mod slip;

pub use fault::{BookingFault, OverlayFault};
pub use ledger::{Account, Ledger};
pub use open::Open;
pub use received::Received;
pub use slip::{Answer, Refused, Slip};
