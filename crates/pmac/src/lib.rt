// PMAC of the bits in a memory, over any engine.
#![tactic(auto)]

mod fault;
mod lost;
mod offset;
mod refusal;
mod seal;

ghost use Rattle.std.specs.Prelude.{◌≡◌};
ghost use Rattle.engine.specs.Meaning.{spent};
ghost use Rattle.pmac.specs.Cases.{Cases};
ghost use Rattle.pmac.specs.Edits.{AddsWritten, PutsWritten};
ghost use Rattle.pmac.specs.Prices.{Prices};
ghost use Rattle.pmac.specs.Recovery.{Recoveries, PlacesWritten, OneBlock};
ghost use Rattle.pmac.specs.Stored.{Steps, Sums, Drops};
ghost use Rattle.pmac.specs.Sealing.{outcome, operations, full_tag};

use bits::Bits;
use block::Block;
use engine::Engine;
pub use fault::TagFault;
pub use lost::lost_block;
pub use seal::{due, ending, seal_blocks, sealed_bits};

// What sealing some bits works out.
#[derive(Clone, Copy)]
pub struct SealedBits<B> {
    // L, the zero block enciphered.
    pub l: B,
    // The sum of Y over the blocks before the last.
    pub sum: B,
    // The full tag.
    pub tag: B,
}

// The full tag of some bits, and the operations that it took.
#[derive(Clone, Copy)]
pub struct FullTag<B> {
    pub tag: B,
    pub operations: u32,
}

// The full tag of the memory's first `bits` bits, from nothing.
pub fn full_tag<E: Engine>(
    engine: &mut E,
    memory: &[u8],
    bits: usize,
) -> Result<FullTag<E::Block>, TagFault>
    ensures answer { outcome result ≡ full_tag E.Block.Block.arith (E.Engine.means engine.old) memory.now bits }
    ensures after { E.Engine.means engine.new ≡ spent (operations (outcome result)) (E.Engine.means engine.old) }
{
    let bits = Bits::new(memory, bits).ok_or(TagFault::Memory)?;
    let operations = seal::due::<E::Block>(bits.len);
    engine::afford(engine, operations)?;
    let SealedBits { tag, .. } = seal::sealed_bits(engine, bits)?;
    Ok(FullTag { tag, operations })
}

// An offset follows from the one before; the sum of the bits is that of the memory's blocks.
pub fn sums_stand<B: Block>()
    ensures steps { Steps B.Block.arith }
    ensures sums { Sums B.Block.arith }
{}

// What enters and leaves the sum when bits are added, cut and replaced.
pub fn edits_stand<B: Block>()
    ensures adds { AddsWritten B.Block.arith }
    ensures cuts { Drops B.Block.arith }
    ensures puts { PutsWritten B.Block.arith }
{}

// No edit asks for more than the price list's bound, and a put asks for the blocks that it touches.
pub fn prices_stand<B: Block>()
    ensures { Prices B.Block.arith }
{}

// A lost whole block is the one that gives the tag; written, it stands in its place; and bits that differ in
// one whole block have different tags.
pub fn recovery_stands<B: Block>()
    ensures recoveries { Recoveries B.Block.arith }
    ensures places { PlacesWritten B.Block.arith }
    ensures one_block { OneBlock B.Block.arith }
{}

// The worked cases, a row each.
pub fn worked_cases()
    ensures { Cases }
{}
