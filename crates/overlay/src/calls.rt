// The calls of an open overlay.
ghost use Rattle.std.specs.Prelude.{◌≡◌, []};
ghost use Rattle.overlay.specs.Calls.{begin, add as add_of, cut as cut_of, put as put_of, tag as tag_of};
ghost use Rattle.overlay.specs.Laws.{Opens, Adds, Cuts, Puts, Tags};
ghost use Rattle.overlay.specs.Views.{state, world, worked, seen, taken, Returned};

use crate::{Answer, Open, OverlayFault, Refused, judge};
use block::Block;
use engine::Engine;
use std::ops::Range;

impl<E: Engine> Open<E> {
    // An empty overlay over `engine`; a refusal gives the engine back.
    pub fn new(mut engine: E, memory: &[u8]) -> Answer<Self, Refused<E>>
        ensures after { taken (state E.Engine.means) E.Engine.means result.outcome result.slip.count ≡ begin E.Block.Block.arith (E.Engine.means engine) memory.now }
        ensures back { Returned result.outcome engine }
        ensures law { Opens E.Block.Block.arith (taken (state E.Engine.means) E.Engine.means result.outcome result.slip.count) }
    {
        if let Err(fault) = judge::fit(memory, 0) {
            return Answer::refused(Refused::new(fault, engine), 0);
        }
        let zero = E::Block::zero();
        match engine.encipher(zero) {
            Ok(l) => {
                let open = Open {
                    engine,
                    bits: 0,
                    l,
                    sum: zero,
                };
                Answer::given(open, 1)
            }
            Err(fault) => Answer::refused(Refused::new(fault.into(), engine), 0),
        }
    }

    // Writes the first `count` bits of `edit` behind the bits standing.
    pub fn add(&mut self, memory: &mut [u8], edit: &[u8], count: u32) -> Answer
        ensures after { seen result (world E.Engine.means self.new memory.new []) ≡ add_of E.Block.Block.arith (world E.Engine.means self.old memory.old []) edit.now count }
        ensures law { Adds E.Block.Block.arith (world E.Engine.means self.old memory.old []) edit.now count (seen result (world E.Engine.means self.new memory.new [])) }
    {
        Answer::of(self.add_blocks(memory, edit, count))
    }

    // Drops the last `count` bits standing.
    pub fn cut(&mut self, memory: &[u8], count: u32) -> Answer
        ensures after { seen result (world E.Engine.means self.new memory.now []) ≡ cut_of E.Block.Block.arith (world E.Engine.means self.old memory.now []) count }
        ensures law { Cuts E.Block.Block.arith (world E.Engine.means self.old memory.now []) count (seen result (world E.Engine.means self.new memory.now [])) }
    {
        Answer::of(self.cut_blocks(memory, count))
    }

    // Replaces `count` bits from `position` on by the first ones of `edit`.
    pub fn put(&mut self, memory: &mut [u8], position: u32, edit: &[u8], count: u32) -> Answer
        ensures after { seen result (world E.Engine.means self.new memory.new []) ≡ put_of E.Block.Block.arith (world E.Engine.means self.old memory.old []) position edit.now count }
        ensures law { Puts E.Block.Block.arith (world E.Engine.means self.old memory.old []) position edit.now count (seen result (world E.Engine.means self.new memory.new [])) }
    {
        Answer::of(self.put_blocks(memory, position, edit, count))
    }

    // Fills `buffer` with the first bytes of the tag of the bits standing.
    pub fn tag(&mut self, memory: &[u8], buffer: &mut [u8]) -> Answer
        ensures after { seen result (world E.Engine.means self.new memory.now buffer.new) ≡ tag_of E.Block.Block.arith (world E.Engine.means self.old memory.now buffer.old) }
        ensures law { Tags E.Block.Block.arith (world E.Engine.means self.old memory.now buffer.old) (seen result (world E.Engine.means self.new memory.now buffer.new)) }
    {
        Answer::of(self.write_tag(memory, buffer))
    }

    // The work of `add`, and the operations that it took.
    fn add_blocks(
        &mut self,
        memory: &mut [u8],
        edit: &[u8],
        count: u32,
    ) -> Result<u32, OverlayFault>
        ensures { worked result (world E.Engine.means self.new memory.new []) ≡ add_of E.Block.Block.arith (world E.Engine.means self.old memory.old []) edit.now count }
    {
        judge::fit(memory, self.bits)?;
        judge::enough(edit, count)?;
        judge::room(memory, self.bits as usize + count as usize)?;
        let blocks = judge::blocks_between::<E::Block>(self.bits, self.bits + count);
        let due = (blocks.end - blocks.start) as u32;
        engine::afford(&self.engine, due)?;
        bits::write_bits(memory, self.bits as usize, edit, count as usize);
        let come = pmac::seal_blocks(&mut self.engine, memory, self.l, blocks)?;
        self.sum = self.sum.xor(come);
        self.bits += count;
        Ok(due)
    }

    // The work of `cut`, and the operations that it took.
    fn cut_blocks(&mut self, memory: &[u8], count: u32) -> Result<u32, OverlayFault>
        ensures { worked result (world E.Engine.means self.new memory.now []) ≡ cut_of E.Block.Block.arith (world E.Engine.means self.old memory.now []) count }
    {
        judge::fit(memory, self.bits)?;
        judge::within(self.bits, count as usize)?;
        let blocks = judge::blocks_between::<E::Block>(self.bits - count, self.bits);
        let due = (blocks.end - blocks.start) as u32;
        engine::afford(&self.engine, due)?;
        let gone = pmac::seal_blocks(&mut self.engine, memory, self.l, blocks)?;
        self.sum = self.sum.xor(gone);
        self.bits -= count;
        Ok(due)
    }

    // The work of `put`, and the operations that it took.
    fn put_blocks(
        &mut self,
        memory: &mut [u8],
        position: u32,
        edit: &[u8],
        count: u32,
    ) -> Result<u32, OverlayFault>
        ensures { worked result (world E.Engine.means self.new memory.new []) ≡ put_of E.Block.Block.arith (world E.Engine.means self.old memory.old []) position edit.now count }
    {
        judge::fit(memory, self.bits)?;
        judge::enough(edit, count)?;
        judge::within(self.bits, position as usize + count as usize)?;
        let Range { start, end } = judge::touched_blocks::<E::Block>(self.bits, position, count);
        let due = 2 * (end - start) as u32;
        engine::afford(&self.engine, due)?;
        let old = pmac::seal_blocks(&mut self.engine, memory, self.l, start..end)?;
        bits::write_bits(memory, position as usize, edit, count as usize);
        let new = pmac::seal_blocks(&mut self.engine, memory, self.l, start..end)?;
        self.sum = self.sum.xor(old).xor(new);
        Ok(due)
    }

    // The work of `tag`, and the operations that it took.
    fn write_tag(&mut self, memory: &[u8], buffer: &mut [u8]) -> Result<u32, OverlayFault>
        ensures { worked result (world E.Engine.means self.new memory.now buffer.new) ≡ tag_of E.Block.Block.arith (world E.Engine.means self.old memory.now buffer.old) }
    {
        let bits = judge::fit(memory, self.bits)?;
        judge::tag_length::<E::Block>(buffer.len())?;
        engine::afford(&self.engine, 1)?;
        let last = pmac::ending(bits, self.l);
        let full = self.engine.encipher(self.sum.xor(last))?;
        judge::write_front(full, buffer);
        Ok(1)
    }
}
