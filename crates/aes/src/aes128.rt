// The AES-128 engine.
ghost use Rattle.aes.specs.Maps.{aes};

use crate::keys::RoundKeys;
use engine::{KeyFault, KeyedCipher, Metered};

// The engine.
pub type Aes128 = Metered<RoundKeys>;

impl KeyedCipher for RoundKeys {
    ghost made = { aes 4 };

    fn with_key(key: &[u8]) -> Result<Self, KeyFault> {
        if key.len() != 16 {
            return Err(KeyFault::Length);
        }
        Ok(RoundKeys::new(key))
    }
}
