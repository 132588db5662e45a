// The number under which a fault is told.
ghost use Rattle.history.specs.Views.{call_refusal};

use crate::CallFault;
use engine::Numbered;

impl Numbered for CallFault {
    ghost refusal = { call_refusal };

    fn number(self) -> u32 {
        match self {
            CallFault::Overlay(fault) => fault.number(),
            CallFault::Booking(fault) => fault.number(),
        }
    }
}
