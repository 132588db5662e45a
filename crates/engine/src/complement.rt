// The engine that flips every bit, both ways.
ghost use Rattle.std.specs.Prelude.{◌≡◌};
ghost use Rattle.engine.specs.Complement.{flipped, flipping, complement};
ghost use Rattle.block.specs.Blocks.{make64};
ghost use Rattle.block.specs.Same.{laws64};
ghost use Rattle.block.proofs.Group.{twice};

use crate::{Cipher, Metered};
use block::{Block, Block64};

// The cipher that flips all bits of a block.
#[derive(Drop)]
pub struct AllBits;

pub type Complement = Metered<AllBits>;

impl Metered<AllBits> {
    pub fn new(left: u32) -> Self
        ensures { result.allowance.left ≡ left }
    {
        Metered::of(AllBits, left)
    }
}

fn flip(block: Block64) -> Block64
    ensures { result ≡ flipped block }
{
    block.xor(Block64::new(u64::MAX.into()))
}

impl Cipher for AllBits {
    type Block = Block64;

    ghost maps = { λ _. flipping };

    ghost undoes = { λ _ left. record { dec_enc = λ x. twice laws64 x (make64 0xFFFFFFFFFFFFFFFF); enc_dec = λ x. twice laws64 x (make64 0xFFFFFFFFFFFFFFFF) } };

    fn encipher(&self, block: Block64) -> Block64 {
        flip(block)
    }

    fn decipher(&self, block: Block64) -> Block64 {
        flip(block)
    }
}
