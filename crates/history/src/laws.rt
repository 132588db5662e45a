// The laws of the plain reckoning.
ghost use Rattle.std.specs.Prelude.{ℕ};
ghost use Rattle.engine.specs.Meaning.{Meaning, Undoes};
ghost use Rattle.history.specs.Reckoning.{Total, Deterministic, Balanced, Fair};

use block::Block;

// Where the map can be undone, each call has an answer, and only one. With any map, no operation appears or is lost, and no
// call's slip shows more than the price list's bound.
pub fn reckoning_stands<B: Block>()
    ensures total { (m : Meaning B) → Undoes m → (size : ℕ) → Total B.Block.arith m.enc size }
    ensures deterministic { (m : Meaning B) → Undoes m → (size : ℕ) → Deterministic B.Block.arith m.enc size }
    ensures balanced { (enc : B → B) (size : ℕ) → Balanced B.Block.arith enc size }
    ensures fair { (enc : B → B) (size : ℕ) → Fair B.Block.arith enc size }
{}
