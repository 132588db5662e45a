// A received overlay's lost block, written back.
ghost use Rattle.std.specs.Prelude.{◌≡◌};
ghost use Rattle.pmac.specs.Recovery.{OneBlock};
ghost use Rattle.history.specs.Restoring.{restoring as restoring_of, Restores};
ghost use Rattle.history.specs.Views.{turn_of};

use crate::{Stage, Stepped};
use engine::Engine;
use overlay::{Answer, Received};

// Receives an overlay of `bits` bits and writes block `number` anew from the others and the full tag. Any other block would
// give another tag.
pub fn restore<E: Engine>(
    engine: E,
    bits: u32,
    memory: &mut [u8],
    tag: &[u8],
    number: u32,
) -> Stepped<E>
    ensures after { turn_of E.Engine.means result memory.new ≡ restoring_of E.Block.Block.arith (E.Engine.means engine) memory.old bits tag.now number }
    ensures law { Restores E.Block.Block.arith (E.Engine.means engine) memory.old bits tag.now number (turn_of E.Engine.means result memory.new) }
    ensures one_block { OneBlock E.Block.Block.arith }
{
    write_anew(engine, bits, memory, tag, number)
}

// The work of `restore`.
fn write_anew<E: Engine>(
    engine: E,
    bits: u32,
    memory: &mut [u8],
    tag: &[u8],
    number: u32,
) -> Stepped<E>
    ensures { turn_of E.Engine.means result memory.new ≡ restoring_of E.Block.Block.arith (E.Engine.means engine) memory.old bits tag.now number }
{
    let Answer { outcome, slip } = Received::new(engine, bits, memory);
    match outcome {
        Ok(mut received) => {
            let answer = received.recover(memory, tag, number);
            Stepped::after(Stage::Received(received), answer)
        }
        Err(refused) => Stepped::returned(refused, slip),
    }
}
