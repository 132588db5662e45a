// The numbers under which faults are told.
ghost use Rattle.engine.specs.Refusals.{key_refusal, engine_refusal};

use crate::{EngineFault, KeyFault, Numbered};

impl Numbered for KeyFault {
    ghost refusal = { key_refusal };

    fn number(self) -> u32 {
        match self {
            KeyFault::Length => 1,
        }
    }
}

impl Numbered for EngineFault {
    ghost refusal = { engine_refusal };

    fn number(self) -> u32 {
        match self {
            EngineFault::Spent { .. } => 8,
        }
    }
}
