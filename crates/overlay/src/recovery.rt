// The calls of a received overlay.
ghost use Rattle.std.specs.Prelude.{◌≡◌};
ghost use Rattle.overlay.specs.Receiving.{receive as receive_of, check as check_of, recover as recover_of};
ghost use Rattle.overlay.specs.Views.{state, arrived, harbour, taken, examined, worked, seen, Returned};
ghost use Rattle.overlay.specs.Calls.{back};
ghost use Rattle.overlay.specs.Refusals.{overlay_refusal};

use crate::received::Examined;
use crate::{Answer, Open, OverlayFault, Received, Refused, judge};
use block::Block;
use engine::Engine;
use pmac::SealedBits;

impl<E: Engine> Received<E> {
    // The memory's first `bits` bits over `engine`, which is asked nothing; a refusal gives it back.
    pub fn new(engine: E, bits: u32, memory: &[u8]) -> Answer<Self, Refused<E>>
        ensures after { taken (arrived E.Engine.means) E.Engine.means result.outcome result.slip.count ≡ receive_of E.Block.Block.arith (E.Engine.means engine) memory.now bits }
        ensures back { Returned result.outcome engine }
        ensures free { result.slip.count ≡ 0 }
    {
        match judge::fit(memory, bits) {
            Ok(_) => Answer::given(Received { engine, bits }, 0),
            Err(fault) => Answer::refused(Refused::new(fault, engine), 0),
        }
    }

    // Opens the overlay if `tag` is its tag's first bytes.
    pub fn check(mut self, memory: &[u8], tag: &[u8]) -> Answer<Open<E>, Refused<Self>>
        ensures after { taken (state E.Engine.means) (arrived E.Engine.means) result.outcome result.slip.count ≡ check_of E.Block.Block.arith (arrived E.Engine.means self) memory.now tag.now }
    {
        match self.examine(memory, tag) {
            Ok(
                Examined {
                    opened: Some(SealedBits { l, sum, .. }),
                    due,
                },
            ) => {
                let Received { engine, bits } = self;
                let open = Open {
                    engine,
                    bits,
                    l,
                    sum,
                };
                Answer::given(open, due)
            }
            Ok(Examined { opened: None, due }) => self.kept(OverlayFault::WrongTag, due),
            Err(fault) => self.kept(fault, 0),
        }
    }

    // A check that opens nothing: the overlay stays received.
    fn kept(self, fault: OverlayFault, due: u32) -> Answer<Open<E>, Refused<Self>>
        ensures { taken (state E.Engine.means) (arrived E.Engine.means) result.outcome result.slip.count ≡ back (arrived E.Engine.means self) (overlay_refusal fault) due }
    {
        Answer::refused(Refused::new(fault, self), due)
    }

    // The work of `check`.
    fn examine(&mut self, memory: &[u8], tag: &[u8]) -> Result<Examined<E::Block>, OverlayFault>
        ensures { examined E.Engine.means result self.new ≡ check_of E.Block.Block.arith (arrived E.Engine.means self.old) memory.now tag.now }
    {
        let bits = judge::fit(memory, self.bits)?;
        judge::tag_length::<E::Block>(tag.len())?;
        let due = pmac::due::<E::Block>(bits.len);
        engine::afford(&self.engine, due)?;
        let sealed = pmac::sealed_bits(&mut self.engine, bits)?;
        let mut worked = [0u8; 16];
        judge::write_front(sealed.tag, &mut worked[..tag.len()]);
        let opened = judge::same_bytes(tag, &worked[..tag.len()]).then_some(sealed);
        Ok(Examined { opened, due })
    }

    // Writes block `number` anew, so that `tag` is the full tag; what the block holds is not looked at.
    pub fn recover(&mut self, memory: &mut [u8], tag: &[u8], number: u32) -> Answer
        ensures after { seen result (harbour E.Engine.means self.new memory.new) ≡ recover_of E.Block.Block.arith (harbour E.Engine.means self.old memory.old) tag.now number }
    {
        Answer::of(self.write_back(memory, tag, number))
    }

    // The work of `recover`, and the operations that it took.
    fn write_back(
        &mut self,
        memory: &mut [u8],
        tag: &[u8],
        number: u32,
    ) -> Result<u32, OverlayFault>
        ensures { worked result (harbour E.Engine.means self.new memory.new) ≡ recover_of E.Block.Block.arith (harbour E.Engine.means self.old memory.old) tag.now number }
    {
        let bits = judge::fit(memory, self.bits)?;
        judge::full_length::<E::Block>(tag.len())?;
        judge::whole_block::<E::Block>(self.bits, number)?;
        let due = pmac::due::<E::Block>(bits.len);
        engine::afford(&self.engine, due)?;
        let full = E::Block::read(tag);
        let lost = pmac::lost_block(&mut self.engine, bits, full, number as usize)?;
        bits::write_block(memory, number as usize, lost);
        Ok(due)
    }
}
