// The cipher and the inverse cipher of a block, under the round keys of a key.
ghost use Rattle.std.specs.Prelude.{◌≡◌, length};
ghost use Rattle.aes.specs.Schedule.{key_schedule};
ghost use Rattle.aes.specs.Keyed.{keys_in};
ghost use Rattle.aes.specs.Maps.{under};
ghost use Rattle.aes.specs.MapsLemmas;

use crate::keys::RoundKeys;
use crate::rounds::through;
use crate::way::{Back, Forth};
use crate::way_keys::WayKeys;
use crate::words::Words;
use block::Block128;
use engine::Cipher;

impl RoundKeys {
    pub(crate) fn new(key: &[u8]) -> Self
        requires { length key.now ≡ 16 }
        ensures { keys_in result ≡ key_schedule 4 key.now }
    {
        let forth = WayKeys::scheduled(key);
        let back = forth.turned_back();
        RoundKeys { forth, back }
    }
}

impl Cipher for RoundKeys {
    type Block = Block128;

    ghost maps = { λ k. under (keys_in k) };

    ghost undoes = { λ k left. MapsLemmas.undoes (keys_in k) left (MapsLemmas.keys_fit k) };

    fn encipher(&self, block: Block128) -> Block128 {
        through::<Forth>(&self.forth, block.into()).into()
    }

    // The way back is a way forth over mirrored columns, since their rows shift in the other direction.
    fn decipher(&self, block: Block128) -> Block128 {
        let x = Words::from(block).mirrored();
        through::<Back>(&self.back, x).mirrored().into()
    }
}
