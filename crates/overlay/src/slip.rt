// Slips: how many operations a call asked of its engine.
ghost use Rattle.std.specs.Prelude.{◌≡◌, Ok, Err};
ghost use Rattle.overlay.specs.Tests.{answer};

use crate::OverlayFault;

// Shows a number of operations that is still to be booked. It may end only when it shows zero.
pub struct Slip {
    pub(crate) count: u32,
}

impl Drop for Slip {
    fn drop(self)
        requires { self.count ≡ 0 }
    {
        let Slip { count: _ } = self;
    }
}

impl Slip {
    // Only calls make slips.
    pub(crate) fn of(count: u32) -> Self
        ensures { result.count ≡ count }
    {
        Slip { count }
    }

    pub fn shows(&self) -> u32
        ensures { result ≡ self.now.count }
    {
        self.count
    }
}

// What a call answers: its outcome, and the slip for what it asked of the engine.
pub struct Answer<T = (), F = OverlayFault> {
    pub outcome: Result<T, F>,
    pub slip: Slip,
}

impl<T, F> Answer<T, F> {
    // Of a call that was carried out for `due` operations.
    pub(crate) fn given(value: T, due: u32) -> Self
        ensures outcome { result.outcome ≡ Ok value }
        ensures slip { result.slip.count ≡ due }
    {
        Answer {
            outcome: Ok(value),
            slip: Slip::of(due),
        }
    }

    // Of a call that was refused after `due` operations.
    pub(crate) fn refused(fault: F, due: u32) -> Self
        ensures outcome { result.outcome ≡ Err fault }
        ensures slip { result.slip.count ≡ due }
    {
        Answer {
            outcome: Err(fault),
            slip: Slip::of(due),
        }
    }
}

impl Answer {
    // Of a call whose work took so many operations, or was refused for none.
    pub(crate) fn of(worked: Result<u32, OverlayFault>) -> Self
        ensures outcome { result.outcome ≡ (answer worked).0 }
        ensures slip { result.slip.count ≡ (answer worked).1 }
    {
        match worked {
            Ok(due) => Answer::given((), due),
            Err(fault) => Answer::refused(fault, 0),
        }
    }
}

// Why a call took no overlay on, and what was handed in for it.
#[derive(Drop)]
pub struct Refused<T> {
    pub fault: OverlayFault,
    pub back: T,
}

impl<T> Refused<T> {
    pub(crate) fn new(fault: OverlayFault, back: T) -> Self
        ensures fault { result.fault ≡ fault }
        ensures back { result.back ≡ back }
    {
        Refused { fault, back }
    }
}
