// Sums of a memory's whole blocks, under any engine.
ghost use Rattle.std.specs.Prelude.{◌≡◌, IfOk};
ghost use Rattle.bench.specs.Sums.{IsWay, total};
ghost use Rattle.engine.specs.Meaning.{Meaning};

use block::Block;
use engine::{Engine, EngineFault};

// The sum of what one way through an engine, enciphering or deciphering, makes of the blocks of `memory`.
pub(crate) fn sum_of<E: Engine, W: Fn(&mut E, E::Block) -> Result<E::Block, EngineFault>>(
    engine: &mut E,
    memory: &[u8],
    way: W,
) -> Result<E::Block, EngineFault>
    requires { W.IsAlwaysCallable way }
    ensures { (f : Meaning E.Block → E.Block → E.Block) → IsWay E.Engine.means f W.Fn way → IfOk result (λ s. s ≡ total E.Block.Block.arith (f (E.Engine.means engine.old)) memory.now) }
{
    let mut sum = E::Block::zero();
    for bytes in memory.chunks_exact(E::Block::size()) {
        sum = sum.xor(way(engine, E::Block::read(bytes))?);
    }
    Ok(sum)
}
