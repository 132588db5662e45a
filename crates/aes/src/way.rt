// The two ways through the rounds, forth and back: what each does to a byte, by its tables.
ghost use Rattle.std.specs.Prelude.{◌≡◌, ℕ, ◌<◌};
ghost use Rattle.aes.specs.Ways.{Steps, forth, back};
ghost use Rattle.aes.specs.Words.{brought};
ghost use Rattle.aes.specs.Substitution.{sub_lt, inv_sub_lt};

use crate::inv_tables::{INV_SBOX, UNMIXING};
use crate::tables::{MIXING, SBOX};

pub(crate) trait Way {
    ghost steps: { Steps };

    // The S-box of this way.
    fn substitute(x: u8) -> u8
        ensures { result ≡ steps.sub x };

    // What the byte x brings to a column through the S-box and the matrix: from row 0, and from row 1. By reference,
    // since the compiler copies two words that it hands over by value.
    fn brought(x: u8) -> &'static [u32; 2]
        ensures { result.now ≡ brought steps x };

    ghost bytes: { (x : ℕ) → x < 256 → steps.sub x < 256 };
}

// SubBytes and MixColumns.
pub(crate) struct Forth;

// InvSubBytes and InvMixColumns.
pub(crate) struct Back;

impl Way for Forth {
    ghost steps = { forth };

    ghost bytes = { sub_lt };

    fn substitute(x: u8) -> u8 {
        SBOX[x as usize]
    }

    fn brought(x: u8) -> &'static [u32; 2] {
        &MIXING[x as usize]
    }
}

impl Way for Back {
    ghost steps = { back };

    ghost bytes = { inv_sub_lt };

    fn substitute(x: u8) -> u8 {
        INV_SBOX[x as usize]
    }

    fn brought(x: u8) -> &'static [u32; 2] {
        &UNMIXING[x as usize]
    }
}
