// The numbers under which faults are told, and an engine's fault as an overlay's.
ghost use Rattle.std.specs.Prelude.{◌≡◌};
ghost use Rattle.overlay.specs.Refusals.{overlay_refusal, booking_refusal};
ghost use Rattle.overlay.specs.declared.fault.OverlayFault.TheVariants.{Engine as by_engine};

use crate::{BookingFault, OverlayFault};
use engine::{EngineFault, Numbered};

impl Numbered for OverlayFault {
    ghost refusal = { overlay_refusal };

    fn number(self) -> u32 {
        match self {
            OverlayFault::Memory => 2,
            OverlayFault::Edit => 3,
            OverlayFault::Range => 4,
            OverlayFault::Room => 5,
            OverlayFault::TagLength => 6,
            OverlayFault::BlockNumber => 7,
            OverlayFault::WrongTag => 9,
            OverlayFault::Engine(fault) => fault.number(),
        }
    }
}

impl Numbered for BookingFault {
    ghost refusal = { booking_refusal };

    fn number(self) -> u32 {
        match self {
            BookingFault::NoAccount => 16,
            BookingFault::Full => 17,
        }
    }
}

// A derived one would not say in clauses which error `?` makes.
impl From<EngineFault> for OverlayFault {
    ghost from_gives = { λ e r. r ≡ by_engine e };

    fn from(fault: EngineFault) -> OverlayFault {
        OverlayFault::Engine(fault)
    }
}
