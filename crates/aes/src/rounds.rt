// The rounds of either way, over any round keys.
ghost use Rattle.std.specs.Prelude.{◌≡◌, fold, map};
ghost use Rattle.aes.specs.Ways.{round, last_round, through};
ghost use Rattle.aes.specs.Words.{state_of, keys_of};

use crate::columns::{gathered, mixed, substituted};
use crate::way::Way;
use crate::way_keys::WayKeys;
use crate::words::Words;

// The columns stand in falling order, and in each the key first: so the compiled round waits least for its table
// (docs/BENCHMARKS.md).
#[tactic(auto, using(crate::specs::Pack::key_first), unfolding(crate::specs::Ways::round, crate::specs::Words::state_of))]
fn whole_round<W: Way>(x: Words, k: &Words) -> Words
    ensures { state_of result ≡ round W.steps (state_of x) (state_of k.now) }
{
    Words {
        c3: k.c3 ^ mixed::<W>(gathered(x.c3, x.c0, x.c1, x.c2)),
        c2: k.c2 ^ mixed::<W>(gathered(x.c2, x.c3, x.c0, x.c1)),
        c1: k.c1 ^ mixed::<W>(gathered(x.c1, x.c2, x.c3, x.c0)),
        c0: k.c0 ^ mixed::<W>(gathered(x.c0, x.c1, x.c2, x.c3)),
    }
}

// The last round mixes no columns.
#[tactic(auto, unfolding(crate::specs::Ways::last_round, crate::specs::Words::state_of))]
fn last_round<W: Way>(x: Words, k: &Words) -> Words
    ensures { state_of result ≡ last_round W.steps (state_of x) (state_of k.now) }
{
    let shifted = Words {
        c0: substituted::<W>(gathered(x.c0, x.c1, x.c2, x.c3)),
        c1: substituted::<W>(gathered(x.c1, x.c2, x.c3, x.c0)),
        c2: substituted::<W>(gathered(x.c2, x.c3, x.c0, x.c1)),
        c3: substituted::<W>(gathered(x.c3, x.c0, x.c1, x.c2)),
    };
    shifted ^ *k
}

fn whole_rounds<W: Way>(keys: &[Words], mut x: Words) -> Words
    ensures { state_of result ≡ fold (round W.steps) (state_of x) (map state_of keys.now) }
{
    for k in keys {
        x = whole_round::<W>(x, k);
    }
    x
}

// All rounds of a way, under its keys.
#[tactic(auto, unfolding(crate::specs::Ways::through))]
pub(crate) fn through<W: Way>(keys: &WayKeys, x: Words) -> Words
    ensures { state_of result ≡ through W.steps (keys_of keys.now) (state_of x) }
{
    let y = whole_rounds::<W>(&keys.middle, x ^ keys.first);
    last_round::<W>(y, &keys.last)
}
