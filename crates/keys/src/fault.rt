// Why a key could not be typed in or taken.
ghost use Rattle.keys.specs.Refusals.{entry_refusal};

use engine::Numbered;

#[derive(Clone, Copy, PartialEq, Eq, Debug)]
pub enum EntryFault {
    // The character is no hexadecimal digit.
    NoDigit,
    // The key has all its digits already.
    Full,
    // The key lacks digits.
    Incomplete,
}

impl Numbered for EntryFault {
    ghost refusal = { entry_refusal };

    fn number(self) -> u32 {
        match self {
            EntryFault::NoDigit => 15,
            EntryFault::Full => 1,
            EntryFault::Incomplete => 1,
        }
    }
}
