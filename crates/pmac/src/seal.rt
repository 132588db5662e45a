// Blocks of some bits under the engine, and the tag that they give.
ghost use Rattle.std.specs.Prelude.{◌≡◌, ◌+◌, ◌-◌, ◌*◌, ◌≤◌, length};
ghost use Rattle.bits.specs.Blocks.{blocks, last as last_of};
ghost use Rattle.bits.specs.Memory.{content};
ghost use Rattle.pmac.specs.Asking.{Asks};
ghost use Rattle.pmac.specs.Pmac.{over, ending as ending_of};
ghost use Rattle.pmac.specs.Sealing.{sealing};
ghost use Rattle.pmac.specs.Stored.{stored};

use crate::{SealedBits, offset};
use bits::{Bits, Last};
use block::Block;
use engine::{Engine, EngineFault};
use std::ops::Range;

// The operations that the full tag of `bits` bits takes.
pub fn due<B: Block>(bits: usize) -> u32
    requires { bits ≤ 524288 }
    ensures { result ≡ blocks B.Block.arith bits + 1 }
{
    (bits::block_count::<B>(bits) + 1) as u32
}

// What the last block of the bits adds to the sum.
pub fn ending<B: Block>(bits: Bits<'_>, l: B) -> B
    ensures { result ≡ ending_of B.Block.arith l (last_of B.Block.arith (content bits.entry)) }
{
    match bits.last_block::<B>() {
        Last::Whole(block) => block.xor(l.halve()),
        Last::Padded(block) => block,
    }
}

// The sum of Y over the blocks of the memory whose numbers are in `range`, where L is `l`.
pub fn seal_blocks<E: Engine>(
    engine: &mut E,
    memory: &[u8],
    l: E::Block,
    range: Range<usize>,
) -> Result<E::Block, EngineFault>
    requires numbered { 1 ≤ range.start }
    requires ordered { range.start ≤ range.end }
    requires inside { (range.end - 1) * E.Block.Block.arith.size ≤ length memory.now }
    requires afforded { range.end - range.start ≤ (E.Engine.means engine.old).left }
    ensures { Asks (E.Engine.means engine.old) (range.end - range.start) (over E.Block.Block.arith (stored E.Block.Block.arith (E.Engine.means engine.old).enc l memory.now) range.start (range.end - range.start)) result (E.Engine.means engine.new) }
{
    let Range { start, end } = range;
    let mut sum = E::Block::zero();
    let mut at = offset::offset(l, start - 1);
    // Each offset follows from the last one, and each block asks the engine.
    for i in start..end {
        at = at.xor(offset::doubled(l, i.trailing_zeros()));
        let block: E::Block = bits::block_at(memory, i);
        let y = engine.encipher(block.xor(at))?;
        sum = sum.xor(y);
    }
    Ok(sum)
}

// The tag, from the sum and what the last block adds to it.
fn closed<E: Engine>(
    engine: &mut E,
    sum: E::Block,
    ending: E::Block,
) -> Result<E::Block, EngineFault>
    requires { 1 ≤ (E.Engine.means engine.old).left }
    ensures { Asks (E.Engine.means engine.old) 1 ((E.Engine.means engine.old).enc (E.Block.Block.arith.plus sum ending)) result (E.Engine.means engine.new) }
{
    engine.encipher(sum.xor(ending))
}

// L, the sum and the full tag of the bits.
pub fn sealed_bits<E: Engine>(
    engine: &mut E,
    bits: Bits<'_>,
) -> Result<SealedBits<E::Block>, EngineFault>
    requires { blocks E.Block.Block.arith bits.len + 1 ≤ (E.Engine.means engine.old).left }
    ensures { Asks (E.Engine.means engine.old) (blocks E.Block.Block.arith bits.entry.len + 1) (sealing E.Block.Block.arith (E.Engine.means engine.old).enc (content bits.entry)) result (E.Engine.means engine.new) }
{
    let l = engine.encipher(E::Block::zero())?;
    let count = bits::block_count::<E::Block>(bits.len);
    let sum = seal_blocks(engine, bits.memory, l, 1..count)?;
    let tag = closed(engine, sum, ending(bits, l))?;
    Ok(SealedBits { l, sum, tag })
}
