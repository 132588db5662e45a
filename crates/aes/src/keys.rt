// The round keys of AES-128, both ways.
ghost use Rattle.std.specs.Prelude.{◌≡◌};
ghost use Rattle.aes.specs.Ways.{turned_back};
ghost use Rattle.aes.specs.Words.{keys_of};

use crate::way_keys::WayKeys;

// The round keys of one key, and AES-128 under it.
#[derive(Drop)]
pub struct RoundKeys {
    pub(crate) forth: WayKeys,
    pub(crate) back: WayKeys,
    ghost turned: { keys_of back ≡ turned_back (keys_of forth) },
}
