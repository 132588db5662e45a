// Blocks that are ⊕ed before and after the engine below.
ghost use Rattle.std.specs.Prelude.{◌≡◌};
ghost use Rattle.engine.specs.Layers.{mask_means};
ghost use Rattle.engine.specs.Undoing.{masked_undoes};
ghost use Rattle.std.proofs.Common.{rules};

use crate::{Engine, EngineFault};
use block::Block;

#[derive(Drop)]
pub struct Mask<E: Engine> {
    before: E::Block,
    after: E::Block,
    below: E,
}

impl<E: Engine> Mask<E> {
    // The mask of `p` before enciphering and `q` after it.
    pub fn new(p: E::Block, q: E::Block, below: E) -> Self
        ensures before { result.before ≡ p }
        ensures after { result.after ≡ q }
        ensures below { result.below ≡ below }
    {
        Mask {
            before: p,
            after: q,
            below,
        }
    }

    pub fn into_parts(self) -> (E::Block, E::Block, E)
        ensures before { result.0 ≡ self.before }
        ensures after { result.1 ≡ self.after }
        ensures below { result.2 ≡ self.below }
    {
        let Mask {
            before,
            after,
            below,
        } = self;
        (before, after, below)
    }
}

impl<E: Engine> Engine for Mask<E> {
    type Block = E::Block;

    ghost means = { mask_means E.Block.Block.arith E.Engine.means };

    ghost undoes = { λ e. masked_undoes E.Block.Block.laws e.before e.after (E.Engine.means e.below) (E.Engine.undoes e.below) };

    ghost bounded = { Prim.search rules };

    fn left(&self) -> u32 {
        self.below.left()
    }

    fn encipher(&mut self, block: E::Block) -> Result<E::Block, EngineFault> {
        let answer = self.below.encipher(block.xor(self.before))?;
        Ok(answer.xor(self.after))
    }

    fn decipher(&mut self, block: E::Block) -> Result<E::Block, EngineFault> {
        let answer = self.below.decipher(block.xor(self.after))?;
        Ok(answer.xor(self.before))
    }
}
