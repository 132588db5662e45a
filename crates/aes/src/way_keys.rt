// The round keys of one way, in the order of their use.
ghost use Rattle.std.specs.Prelude.{◌≡◌, ◌*◌, ◌+◌, ◌<◌, map, reverse, length};
ghost use Rattle.aes.specs.Schedule.{round_key, key_schedule};
ghost use Rattle.aes.specs.State.{listed};
ghost use Rattle.aes.specs.Cipher.{inv_mix_columns};
ghost use Rattle.aes.specs.Ways.{mirror, turned_back};
ghost use Rattle.aes.specs.Words.{unpacked, state_of, keys_of};

use crate::schedule;
use crate::words::Words;

#[derive(Drop)]
pub(crate) struct WayKeys {
    pub(crate) first: Words,
    // One for each whole round.
    pub(crate) middle: [Words; 9],
    pub(crate) last: Words,
}

// Round key r: the words 4r to 4r + 3.
fn round_key(w: &[u32; 44], r: usize) -> Words
    requires { r < 11 }
    ensures { state_of result ≡ round_key (map unpacked w.now) r }
{
    let [c0, c1, c2, c3] = w.as_chunks::<4>().0[r];
    Words { c0, c1, c2, c3 }
}

fn middle_keys(w: &[u32; 44]) -> [Words; 9]
    ensures { map state_of result ≡ listed (round_key (map unpacked w.now)) 9 1 }
{
    let mut keys = [round_key(w, 0); 9];
    for (i, key) in keys.iter_mut().enumerate() {
        *key = round_key(w, i + 1);
    }
    keys
}

fn back_keys(keys: &[Words; 9]) -> [Words; 9]
    ensures { map state_of result ≡ map (λ k. mirror (inv_mix_columns k)) (reverse (map state_of keys.now)) }
{
    let mut back = *keys;
    back.reverse();
    for key in &mut back {
        *key = key.unmixed().mirrored();
    }
    back
}

impl WayKeys {
    // The keys of the way forth.
    pub(crate) fn scheduled(key: &[u8]) -> Self
        requires { length key.now ≡ 16 }
        ensures { keys_of result ≡ key_schedule 4 key.now }
    {
        let w = schedule::words128(key);
        WayKeys {
            first: round_key(&w, 0),
            middle: middle_keys(&w),
            last: round_key(&w, 10),
        }
    }

    // The keys of the way back: the last first, all mirrored, and those of the whole rounds after InvMixColumns.
    pub(crate) fn turned_back(&self) -> Self
        ensures { keys_of result ≡ turned_back (keys_of self.now) }
    {
        WayKeys {
            first: self.last.mirrored(),
            middle: back_keys(&self.middle),
            last: self.first.mirrored(),
        }
    }
}
