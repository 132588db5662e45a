// The digits of a key as they are typed in.
ghost use Rattle.std.specs.Prelude.{◌≡◌, ◌≤◌, [], length, OnErr};
ghost use Rattle.keys.specs.Digits.{AllDigits};

use crate::{EntryFault, digit_of};
use arrayvec::ArrayVec;
use std::array;

pub const KEY_BYTES: usize = 16;

// Two to a byte.
const KEY_DIGITS: usize = 2 * KEY_BYTES;

// A key of 16 bytes as it is typed in: the digits typed so far. It is never shown.
#[derive(Drop)]
pub struct Entry {
    digits: ArrayVec<u8, KEY_DIGITS>,
    ghost small: { AllDigits digits.items },
    ghost short: { length digits.items ≤ 32 },
}

impl Entry {
    ghost use Rattle.std.specs.Str.{chars};
    ghost use Rattle.keys.specs.Digits.{digit_of};
    ghost use Rattle.keys.specs.Entries.{typed, after, answer, taken};
    ghost use Rattle.keys.specs.Keys.{key_after, concluded};

    // An entry with no digit typed.
    pub fn new() -> Self
        ensures { typed result ≡ [] }
    {
        Entry {
            digits: ArrayVec::new(),
        }
    }

    // Types one character: one digit more, unless it is no digit or all digits are there already.
    pub fn push(&mut self, c: char) -> Result<(), EntryFault>
        ensures answer { result ≡ answer 16 (typed self.old) (digit_of c) }
        ensures after { typed self.new ≡ after 16 (typed self.old) (digit_of c) }
        ensures unaltered { OnErr result (self.new ≡ self.old) }
    {
        let digit = digit_of(c).ok_or(EntryFault::NoDigit)?;
        self.digits.try_push(digit).map_err(|_| EntryFault::Full)
    }

    // The key that the digits spell, once all are typed.
    pub fn key(&self) -> Result<[u8; KEY_BYTES], EntryFault>
        ensures { result ≡ taken 16 (typed self.now) }
    {
        if !self.digits.is_full() {
            return Err(EntryFault::Incomplete);
        }
        Ok(array::from_fn(|i| self.digits[2 * i] * 16 + self.digits[2 * i + 1]))
    }

    // Types a text, up to the first character that is refused.
    pub(crate) fn type_in(&mut self, text: &str) -> Result<(), EntryFault>
        ensures { concluded 16 result (typed self.new) ≡ key_after 16 (typed self.old) (chars text.now) }
    {
        for c in text.chars() {
            self.push(c)?;
        }
        Ok(())
    }
}
