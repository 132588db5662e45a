// A limit on the operations of the engine below.
ghost use Rattle.std.specs.Prelude.{◌≡◌, ◌-◌, if◌then◌else◌, nat_lt};
ghost use Rattle.engine.specs.Layers.{cap_means};
ghost use Rattle.engine.specs.Meaning.{answered};
ghost use Rattle.std.proofs.Common.{rules};

use crate::{Engine, EngineFault};

#[derive(Drop)]
pub struct Cap<E: Engine> {
    limit: u32,
    below: E,
}

impl<E: Engine> Cap<E> {
    pub fn new(limit: u32, below: E) -> Self
        ensures limit { result.limit ≡ limit }
        ensures below { result.below ≡ below }
    {
        Cap { limit, below }
    }

    // What is left of the limit, and the engine below.
    pub fn into_parts(self) -> (u32, E)
        ensures limit { result.0 ≡ self.limit }
        ensures below { result.1 ≡ self.below }
    {
        let Cap { limit, below } = self;
        (limit, below)
    }

    // Takes one off the limit, or refuses where the limit or the engine below has nothing left.
    fn spend(&mut self) -> Result<(), EngineFault>
        ensures answer { result ≡ answered (cap_means E.Engine.means self.old).left tt }
        ensures limit { self.new.limit ≡ (if nat_lt 0 (cap_means E.Engine.means self.old).left then self.old.limit - 1 else self.old.limit) }
        ensures below { self.new.below ≡ self.old.below }
    {
        if self.limit.min(self.below.left()) == 0 {
            return Err(EngineFault::Spent { due: 1, left: 0 });
        }
        self.limit -= 1;
        Ok(())
    }
}

impl<E: Engine> Engine for Cap<E> {
    type Block = E::Block;

    ghost means = { cap_means E.Engine.means };

    ghost undoes = { Prim.search rules };

    ghost bounded = { Prim.search rules };

    fn left(&self) -> u32 {
        self.limit.min(self.below.left())
    }

    fn encipher(&mut self, block: E::Block) -> Result<E::Block, EngineFault> {
        self.spend()?;
        self.below.encipher(block)
    }

    fn decipher(&mut self, block: E::Block) -> Result<E::Block, EngineFault> {
        self.spend()?;
        self.below.decipher(block)
    }
}
