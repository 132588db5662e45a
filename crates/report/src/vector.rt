// Answers to test vectors.
ghost use Rattle.std.specs.Prelude.{◌≡◌, IfOk, Some};
ghost use Rattle.std.specs.Result.{result_ok};
ghost use Rattle.report.specs.Vector.{answer_under, block_of, kind_named, kind_name, vector_of, text_of};

use crate::Cipher;
use crate::seal::{ALLOWANCE, block_hex};
use aes::Aes128;
use block::Block;
use engine::{Engine, Keyed};
use std::alloc::{AllocError, Global};
use std::fmt;
use std::str::FromStr;
use xtea::Xtea;

// What a vector is about: one block enciphered, or the full tag of some bits.
#[derive(Clone, Copy, PartialEq, Eq, PartialOrd, Ord, Debug)]
pub enum Kind {
    Block,
    Pmac,
}

// No kind of vector has the name.
#[derive(Clone, Copy, PartialEq, Eq, Debug)]
pub struct UnknownKind;

impl FromStr for Kind {
    type Err = UnknownKind;

    ghost from_str_gives = { λ name result. result_ok result ≡ kind_named name };

    fn from_str(name: &str) -> Result<Self, UnknownKind> {
        match name {
            "block" => Ok(Kind::Block),
            "pmac" => Ok(Kind::Pmac),
            _ => Err(UnknownKind),
        }
    }
}

impl fmt::Display for Kind {
    ghost output = { λ kind. Some (kind_name kind) };

    fn fmt<W: fmt::Write>(&self, f: &mut fmt::Formatter<W>) -> fmt::Result {
        match self {
            Kind::Block => write!(f, "block"),
            Kind::Pmac => write!(f, "pmac"),
        }
    }
}

// What a test vector asks for.
#[derive(Clone, Copy)]
pub struct Vector<'a> {
    pub kind: Kind,
    pub cipher: Cipher,
    pub key: &'a [u8],
    pub bits: usize,
    pub message: &'a [u8],
}

impl Vector<'_> {
    // The answer in hex, or none where the key or the message is refused.
    pub fn answer(&self, alloc: Global) -> Result<Option<String>, AllocError>
        ensures { IfOk result (λ o. text_of o ≡ vector_of self.now.kind self.now.cipher self.now.key.now self.now.bits self.now.message.now) }
    {
        match self.cipher {
            Cipher::Aes => self.answer_under::<Aes128>(alloc),
            Cipher::Xtea => self.answer_under::<Xtea>(alloc),
        }
    }

    // The same under one cipher.
    fn answer_under<C: Keyed + Drop>(&self, alloc: Global) -> Result<Option<String>, AllocError>
        ensures { IfOk result (λ o. text_of o ≡ answer_under C.Block.Block.arith self.now.kind (C.made self.now.key.now 1000000) self.now.bits self.now.message.now) }
    {
        let Ok(mut engine) = C::new(self.key, ALLOWANCE) else {
            return Ok(None);
        };
        match self.block(&mut engine) {
            Some(block) => Ok(Some(block_hex(alloc, block)?)),
            None => Ok(None),
        }
    }

    // The block that answers the vector.
    fn block<E: Engine>(&self, engine: &mut E) -> Option<E::Block>
        ensures { result ≡ block_of E.Block.Block.arith self.now.kind (E.Engine.means engine.old) self.now.bits self.now.message.now }
    {
        match self.kind {
            Kind::Pmac => Some(pmac::full_tag(engine, self.message, self.bits).ok()?.tag),
            Kind::Block if self.message.len() == E::Block::size() => engine
                .encipher(E::Block::read(self.message))
                .ok(),
            Kind::Block => None,
        }
    }
}
