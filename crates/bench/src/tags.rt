// Full tags of a whole memory, under any engine.
ghost use Rattle.std.specs.Prelude.{◌≡◌, ◌*◌, length};
ghost use Rattle.pmac.specs.Sealing.{full_tag};
ghost use Rattle.bench.specs.Sums.{tag_of};

use engine::Engine;

pub(crate) fn full_tag<E: Engine>(engine: &mut E, memory: &[u8]) -> Option<E::Block>
    ensures { result ≡ tag_of (full_tag E.Block.Block.arith (E.Engine.means engine.old) memory.now (8 * length memory.now)) }
{
    if memory.len() > bits::MEMORY_BYTES {
        return None;
    }
    Some(pmac::full_tag(engine, memory, 8 * memory.len()).ok()?.tag)
}
