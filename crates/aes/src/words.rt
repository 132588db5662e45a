// A state as four words, one for each column, row 0 highest.
ghost use Rattle.std.specs.Prelude.{◌≡◌};
ghost use Rattle.block.specs.Width.{value_of, digits};
ghost use Rattle.block.specs.Blocks.{make128};
ghost use Rattle.aes.specs.State.{state, bytes_in};
ghost use Rattle.aes.specs.Cipher.{add_round_key, inv_mix_column, inv_mix_columns};
ghost use Rattle.aes.specs.Ways.{mirror};
ghost use Rattle.aes.specs.Words.{unpacked, state_of};

use crate::columns::{mixed, substituted};
use crate::way::{Back, Forth};
use block::Block128;
use std::ops::BitXor;

#[derive(Clone, Copy)]
pub(crate) struct Words {
    pub(crate) c0: u32,
    pub(crate) c1: u32,
    pub(crate) c2: u32,
    pub(crate) c3: u32,
}

// AddRoundKey.
impl BitXor for Words {
    type Output = Self;

    ghost bitxor_gives = { λ x k r. state_of r ≡ add_round_key (state_of x) (state_of k) };

    #[tactic(auto, using(crate::specs::Pack::unpacked_xor), unfolding(crate::specs::Words::state_of))]
    fn bitxor(self, key: Self) -> Self {
        Words {
            c0: self.c0 ^ key.c0,
            c1: self.c1 ^ key.c1,
            c2: self.c2 ^ key.c2,
            c3: self.c3 ^ key.c3,
        }
    }
}

// One more than the highest word.
const OVER: u128 = 0x1_0000_0000;

// InvMixColumns at one column: the tables undo an S-box, so one is applied before them.
fn unmixed_column(w: u32) -> u32
    ensures { unpacked result ≡ inv_mix_column (unpacked w) }
{
    let s = substituted::<Forth>(w.to_be_bytes());
    mixed::<Back>(s.to_be_bytes())
}

// The state that a block's bytes fill. By shifts: by way of `to_be_bytes` a block takes six hundredths longer.
impl From<Block128> for Words {
    ghost from_gives = { λ x r. state_of r ≡ state (digits 16 x.value) };

    fn from(block: Block128) -> Self {
        let x = block.value();
        Words {
            c0: (x >> 96) as u32,
            c1: ((x >> 64) % OVER) as u32,
            c2: ((x >> 32) % OVER) as u32,
            c3: (x % OVER) as u32,
        }
    }
}

// The block whose bytes are the state's. By shifts too, since each of the sixteen bytes would need a name.
impl From<Words> for Block128 {
    ghost from_gives = { λ x r. r ≡ make128 (value_of 16 (bytes_in (state_of x))) };

    fn from(x: Words) -> Self {
        Block128::new(
            (u128::from(x.c0) << 96)
                + (u128::from(x.c1) << 64)
                + (u128::from(x.c2) << 32)
                + u128::from(x.c3),
        )
    }
}

impl Words {
    // Column 0 stays, and the others stand the other way round.
    #[tactic(auto, unfolding(crate::specs::Words::state_of))]
    pub(crate) fn mirrored(self) -> Self
        ensures { state_of result ≡ mirror (state_of self) }
    {
        Words {
            c1: self.c3,
            c3: self.c1,
            ..self
        }
    }

    // The state after InvMixColumns.
    #[tactic(auto, unfolding(crate::specs::Words::state_of, crate::specs::Cipher::inv_mix_columns))]
    pub(crate) fn unmixed(self) -> Self
        ensures { state_of result ≡ inv_mix_columns (state_of self) }
    {
        Words {
            c0: unmixed_column(self.c0),
            c1: unmixed_column(self.c1),
            c2: unmixed_column(self.c2),
            c3: unmixed_column(self.c3),
        }
    }
}
