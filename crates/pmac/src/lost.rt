// A block that is lost, from the full tag and the other blocks.
ghost use Rattle.std.specs.Prelude.{◌+◌, ◌-◌, ◌<◌, ◌≤◌};
ghost use Rattle.bits.specs.Blocks.{blocks};
ghost use Rattle.bits.specs.Memory.{content};
ghost use Rattle.pmac.specs.Asking.{Asks};
ghost use Rattle.pmac.specs.Recovery.{lost_inner, lost_last, recovered};

use crate::{offset, seal};
use bits::Bits;
use block::Block;
use engine::{Engine, EngineFault};

// What a lost block is worked out from: the bits, L, and their full tag deciphered.
#[derive(Clone, Copy)]
struct Loss<'a, B> {
    bits: Bits<'a>,
    l: B,
    opened: B,
}

// Block `i` of the bits, which is whole, from their full tag and the other blocks.
pub fn lost_block<E: Engine>(
    engine: &mut E,
    bits: Bits<'_>,
    tag: E::Block,
    i: usize,
) -> Result<E::Block, EngineFault>
    requires numbered { 1 ≤ i }
    requires counted { i ≤ blocks E.Block.Block.arith bits.len }
    requires afforded { blocks E.Block.Block.arith bits.len + 1 ≤ (E.Engine.means engine.old).left }
    ensures { Asks (E.Engine.means engine.old) (blocks E.Block.Block.arith bits.entry.len + 1) (recovered E.Block.Block.arith (E.Engine.means engine.old).enc (E.Engine.means engine.old).dec tag (content bits.entry) i) result (E.Engine.means engine.new) }
{
    let l = engine.encipher(E::Block::zero())?;
    let opened = engine.decipher(tag)?;
    let loss = Loss { bits, l, opened };
    if i < bits::block_count::<E::Block>(bits.len) {
        inner_block(engine, loss, i)
    } else {
        last_block(engine, loss)
    }
}

// Block `i` before the last.
fn inner_block<E: Engine>(
    engine: &mut E,
    loss: Loss<'_, E::Block>,
    i: usize,
) -> Result<E::Block, EngineFault>
    requires numbered { 1 ≤ i }
    requires counted { i < blocks E.Block.Block.arith loss.bits.len }
    requires afforded { blocks E.Block.Block.arith loss.bits.len - 1 ≤ (E.Engine.means engine.old).left }
    ensures { Asks (E.Engine.means engine.old) (blocks E.Block.Block.arith loss.entry.bits.len - 1) (lost_inner E.Block.Block.arith (E.Engine.means engine.old).enc (E.Engine.means engine.old).dec loss.entry.l loss.entry.opened (content loss.entry.bits) i) result (E.Engine.means engine.new) }
{
    let Loss { bits, l, opened } = loss;
    let count = bits::block_count::<E::Block>(bits.len);
    let before = seal::seal_blocks(engine, bits.memory, l, 1..i)?;
    let behind = seal::seal_blocks(engine, bits.memory, l, i + 1..count)?;
    let ending = seal::ending(bits, l);
    let y = opened.xor(ending).xor(before.xor(behind));
    unmasked(engine, y, offset::offset(l, i))
}

// A block out of its Y, under its offset.
fn unmasked<E: Engine>(
    engine: &mut E,
    y: E::Block,
    offset: E::Block,
) -> Result<E::Block, EngineFault>
    requires { 1 ≤ (E.Engine.means engine.old).left }
    ensures { Asks (E.Engine.means engine.old) 1 (E.Block.Block.arith.plus ((E.Engine.means engine.old).dec y) offset) result (E.Engine.means engine.new) }
{
    let masked = engine.decipher(y)?;
    Ok(masked.xor(offset))
}

// The last block, where it is whole.
fn last_block<E: Engine>(engine: &mut E, loss: Loss<'_, E::Block>) -> Result<E::Block, EngineFault>
    requires { blocks E.Block.Block.arith loss.bits.len - 1 ≤ (E.Engine.means engine.old).left }
    ensures { Asks (E.Engine.means engine.old) (blocks E.Block.Block.arith loss.entry.bits.len - 1) (lost_last E.Block.Block.arith (E.Engine.means engine.old).enc loss.entry.l loss.entry.opened (content loss.entry.bits)) result (E.Engine.means engine.new) }
{
    let Loss { bits, l, opened } = loss;
    let count = bits::block_count::<E::Block>(bits.len);
    let sum = seal::seal_blocks(engine, bits.memory, l, 1..count)?;
    Ok(opened.xor(sum).xor(l.halve()))
}
