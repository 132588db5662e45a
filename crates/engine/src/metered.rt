// Block ciphers, and engines that count what is asked of one.
ghost use Rattle.std.specs.Prelude.{◌≡◌, ℕ, List, Result};
ghost use Rattle.engine.specs.Meaning.{Maps, Meaning, Undoes, metered};
ghost use Rattle.engine.specs.Refusals.{Refusal, made_by};
ghost use Rattle.std.proofs.Common.{rules};

use crate::{Allowance, Engine, EngineFault, KeyFault, Keyed};
use block::Block;

// A block cipher under one key: two maps of blocks that undo each other.
pub trait Cipher {
    type Block: Block;

    ghost maps: { Self → Maps Self.Block };

    fn encipher(&self, block: Self::Block) -> Self::Block
        ensures { result ≡ (maps self.now).enc block };

    fn decipher(&self, block: Self::Block) -> Self::Block
        ensures { result ≡ (maps self.now).dec block };

    ghost undoes: { (c : Self) (left : ℕ) → Undoes (metered (maps c) left) };
}

// A cipher that is made of a key.
pub trait KeyedCipher: Cipher {
    // What an engine of it means, by the key and the operations left.
    ghost made: { List ℕ → ℕ → Result (Meaning Self.Block) Refusal };

    // The cipher of a key; a key of another length than its own is refused.
    fn with_key(key: &[u8]) -> Result<Self, KeyFault>
        ensures { (left : ℕ) → made_by (λ c. metered (Self.maps c) left) result ≡ made key.now left };
}

// A cipher with the operations that it may still be asked for.
#[derive(Drop)]
pub struct Metered<C: Cipher> {
    cipher: C,
    allowance: Allowance,
}

impl<C: Cipher> Metered<C> {
    // The engine of a cipher, with `left` operations.
    pub fn of(cipher: C, left: u32) -> Self
        ensures cipher { result.cipher ≡ cipher }
        ensures left { result.allowance.left ≡ left }
    {
        Metered {
            cipher,
            allowance: Allowance::new(left),
        }
    }
}

impl<C: Cipher> Engine for Metered<C> {
    type Block = C::Block;

    ghost means = { λ e. metered (C.Cipher.maps e.cipher) e.allowance.left };

    ghost undoes = { λ e. C.Cipher.undoes e.cipher e.allowance.left };

    ghost bounded = { Prim.search rules };

    fn left(&self) -> u32 {
        self.allowance.left()
    }

    fn encipher(&mut self, block: C::Block) -> Result<C::Block, EngineFault> {
        self.allowance.spend()?;
        Ok(self.cipher.encipher(block))
    }

    fn decipher(&mut self, block: C::Block) -> Result<C::Block, EngineFault> {
        self.allowance.spend()?;
        Ok(self.cipher.decipher(block))
    }
}

impl<C: KeyedCipher> Keyed for Metered<C> {
    ghost made = { C.KeyedCipher.made };

    fn new(key: &[u8], left: u32) -> Result<Self, KeyFault> {
        Ok(Metered::of(C::with_key(key)?, left))
    }
}
