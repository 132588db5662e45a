// Why a message was not sealed.
ghost use Rattle.std.specs.Prelude.{◌≡◌};
ghost use Rattle.report.specs.declared.fault.SealFault.TheVariants.{Entry, Key, OutOfMemory, Overlay, UnknownCipher as Unknown};

use crate::UnknownCipher;
use engine::KeyFault;
use keys::EntryFault;
use overlay::OverlayFault;
use std::alloc::AllocError;

#[derive(Clone, Copy)]
pub(crate) enum SealFault {
    // No cipher has the name.
    UnknownCipher(UnknownCipher),
    // The key was not typed as it should be.
    Entry(EntryFault),
    // The cipher takes no such key.
    Key(KeyFault),
    // One of the overlay's calls was refused.
    Overlay(OverlayFault),
    // There was no memory for the text, or for the overlay.
    OutOfMemory(AllocError),
}

// Derived ones would not say in clauses which error `?` makes.
impl From<UnknownCipher> for SealFault {
    ghost from_gives = { λ fault result. result ≡ Unknown fault };

    fn from(fault: UnknownCipher) -> Self {
        SealFault::UnknownCipher(fault)
    }
}

impl From<EntryFault> for SealFault {
    ghost from_gives = { λ fault result. result ≡ Entry fault };

    fn from(fault: EntryFault) -> Self {
        SealFault::Entry(fault)
    }
}

impl From<KeyFault> for SealFault {
    ghost from_gives = { λ fault result. result ≡ Key fault };

    fn from(fault: KeyFault) -> Self {
        SealFault::Key(fault)
    }
}

impl From<OverlayFault> for SealFault {
    ghost from_gives = { λ fault result. result ≡ Overlay fault };

    fn from(fault: OverlayFault) -> Self {
        SealFault::Overlay(fault)
    }
}

impl From<AllocError> for SealFault {
    ghost from_gives = { λ error result. result ≡ OutOfMemory error };

    fn from(error: AllocError) -> Self {
        SealFault::OutOfMemory(error)
    }
}
