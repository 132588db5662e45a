// One engine after another of the same width.
ghost use Rattle.std.specs.Prelude.{◌≡◌};
ghost use Rattle.engine.specs.Layers.{cascade_means};
ghost use Rattle.engine.specs.Meaning.{answered};
ghost use Rattle.std.proofs.Common.{rules};

use crate::{Engine, EngineFault, afford};

#[derive(Drop)]
pub struct Cascade<E: Engine, F: Engine<Block = E::Block>> {
    first: E,
    second: F,
}

impl<E: Engine, F: Engine<Block = E::Block>> Cascade<E, F> {
    pub fn new(first: E, second: F) -> Self
        ensures first { result.first ≡ first }
        ensures second { result.second ≡ second }
    {
        Cascade { first, second }
    }

    pub fn into_parts(self) -> (E, F)
        ensures first { result.0 ≡ self.first }
        ensures second { result.1 ≡ self.second }
    {
        let Cascade { first, second } = self;
        (first, second)
    }

    // Refuses where either has nothing left; asks neither for an operation.
    fn check(&self) -> Result<(), EngineFault>
        ensures { result ≡ answered (cascade_means E.Engine.means F.Engine.means self.now).left tt }
    {
        afford(&self.first, 1)?;
        afford(&self.second, 1)
    }
}

impl<E: Engine, F: Engine<Block = E::Block>> Engine for Cascade<E, F> {
    type Block = E::Block;

    ghost means = { cascade_means E.Engine.means F.Engine.means };

    ghost undoes = { Prim.search rules };

    ghost bounded = { Prim.search rules };

    fn left(&self) -> u32 {
        self.first.left().min(self.second.left())
    }

    fn encipher(&mut self, block: E::Block) -> Result<E::Block, EngineFault> {
        self.check()?;
        let middle = self.first.encipher(block)?;
        self.second.encipher(middle)
    }

    fn decipher(&mut self, block: E::Block) -> Result<E::Block, EngineFault> {
        self.check()?;
        let middle = self.second.decipher(block)?;
        self.first.decipher(middle)
    }
}
