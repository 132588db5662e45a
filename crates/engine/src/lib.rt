// What an engine means, layers over engines, and the complement engine.
#![tactic(auto)]

mod allowance;
mod cap;
mod cascade;
mod complement;
mod fault;
mod mask;
mod metered;
mod pile;
mod refusal;

ghost use Rattle.std.specs.Prelude.{◌≡◌, ℕ, ◌^◌, ◌<◌, List, Result};
ghost use Rattle.engine.specs.Meaning.{Meaning, Undoes, answered, afforded, spent};
ghost use Rattle.engine.specs.Refusals.{Refusal, made_by};

pub use allowance::Allowance;
use block::Block;
pub use cap::Cap;
pub use cascade::Cascade;
pub use complement::{AllBits, Complement};
pub use fault::{EngineFault, KeyFault};
pub use mask::Mask;
pub use metered::{Cipher, KeyedCipher, Metered};
pub use pile::{Pile, pile_up};

// A block cipher under one key, with a number of operations that it may still be asked for. Its two ways are two methods: one
// method that is told the way would choose again in each engine.
pub trait Engine {
    type Block: Block;

    ghost means: { Self → Meaning Self.Block };

    // The operations left.
    fn left(&self) -> u32
        ensures { result ≡ (means self.now).left };

    // One operation: Enc of the block, or refused where none is left.
    fn encipher(&mut self, block: Self::Block) -> Result<Self::Block, EngineFault>
        ensures answer { result ≡ answered (means self.old).left ((means self.old).enc block) }
        ensures after { means self.new ≡ spent 1 (means self.old) }
        ensures unaltered { (means self.old).left ≡ 0 → self.new ≡ self.old };

    // One operation: Dec of the block, or refused where none is left.
    fn decipher(&mut self, block: Self::Block) -> Result<Self::Block, EngineFault>
        ensures answer { result ≡ answered (means self.old).left ((means self.old).dec block) }
        ensures after { means self.new ≡ spent 1 (means self.old) }
        ensures unaltered { (means self.old).left ≡ 0 → self.new ≡ self.old };

    ghost undoes: { (e : Self) → Undoes (means e) };

    ghost bounded: { (e : Self) → (means e).left < 2 ^ 32 };
}

// An engine that is made of a key.
pub trait Keyed: Engine {
    // What comes of a key, with so many operations left.
    ghost made: { List ℕ → ℕ → Result (Meaning Self.Block) Refusal };

    // The engine of a key, with `left` operations; a key of another length than the cipher's is refused.
    fn new(key: &[u8], left: u32) -> Result<Self, KeyFault>
        ensures { made_by Self.means result ≡ made key.now left };
}

// A refusal, which is told under a number.
pub trait Numbered: Copy {
    // Its number, and the values that it tells.
    ghost refusal: { Self → Refusal };

    // The number under which it is told.
    fn number(self) -> u32
        ensures { result ≡ (refusal self).number };
}

// Whether `due` operations are left; asks the engine for none.
pub fn afford<E: Engine>(engine: &E, due: u32) -> Result<(), EngineFault>
    ensures { result ≡ afforded (E.Engine.means engine.now).left due }
{
    let left = engine.left();
    if left < due {
        return Err(EngineFault::Spent { due, left });
    }
    Ok(())
}
