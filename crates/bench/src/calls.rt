// A message sealed by the calls of an open overlay, and edited by them, under any engine.
ghost use Rattle.std.specs.Prelude.{◌≡◌, ◌*◌, length, take, is_ok, is_some, OnSome};
ghost use Rattle.block.specs.Arith.{to_bytes};
ghost use Rattle.bits.specs.Memory.{standing};
ghost use Rattle.pmac.specs.Pmac.{full};
ghost use Rattle.overlay.specs.Views.{state};
ghost use Rattle.bench.specs.Calls.{Keeps};

use engine::Engine;
use overlay::{Answer, Ledger, Open, Slip};

// The blocks of 128 bits that edits go round.
const ROUND: u32 = 4096;

// Books a slip into a ledger of its own, where every account is empty and takes any slip; answers what it showed.
fn settle(mut slip: Slip) -> u32
    ensures { result ≡ slip.count }
{
    let shown = slip.shows();
    let mut ledger = Ledger::new(0);
    let _ = ledger.book(&mut slip, 0);
    shown
}

// Whether a call was carried out, as `?` asks; its slip ends.
fn carried(answer: Answer) -> Option<()>
    ensures { is_some result ≡ is_ok answer.outcome }
{
    let Answer { outcome, slip } = answer;
    let _ = settle(slip);
    outcome.ok()
}

// Adds a message in pieces of `piece` bytes, as long as every call is carried out.
fn add_all<E: Engine>(
    opened: &mut Open<E>,
    memory: &mut [u8],
    message: &[u8],
    piece: usize,
) -> Option<()>
    requires { Keeps E.Block.Block.arith (state E.Engine.means opened.old) memory.old }
    ensures kept { Keeps E.Block.Block.arith (state E.Engine.means opened.new) memory.new }
    ensures same { (E.Engine.means opened.new.engine).enc ≡ (E.Engine.means opened.old.engine).enc }
{
    if message.len() > bits::MEMORY_BYTES {
        return None;
    }
    for part in message.chunks(piece.max(1)) {
        let count = 8 * part.len() as u32;
        carried(opened.add(memory, part, count))?;
    }
    Some(())
}

// Puts the first block of `edit` at one block after another, each with a tag behind it, as long as every call is
// carried out.
fn put_round<E: Engine>(
    opened: &mut Open<E>,
    memory: &mut [u8],
    edit: &[u8],
    edits: u32,
    tag: &mut [u8],
) -> Option<()>
    requires { Keeps E.Block.Block.arith (state E.Engine.means opened.old) memory.old }
    ensures kept { Keeps E.Block.Block.arith (state E.Engine.means opened.new) memory.new }
    ensures same { (E.Engine.means opened.new.engine).enc ≡ (E.Engine.means opened.old.engine).enc }
{
    for i in 0..edits {
        let position = 128 * (i % ROUND);
        carried(opened.put(memory, position, edit, 128))?;
        carried(opened.tag(memory, tag))?;
    }
    Some(())
}

// Opens an overlay, adds a message in pieces, makes some edits, and asks for the tag of what then stands in the
// memory. Answers whether every call was carried out and all of the message stands.
pub(crate) fn tag_by_calls<E: Engine + Drop>(
    engine: E,
    memory: &mut [u8],
    message: &[u8],
    piece: usize,
    edits: u32,
    tag: &mut [u8],
) -> Option<()>
    ensures { OnSome result (tag.new ≡ take (length tag.old) (to_bytes E.Block.Block.arith (full E.Block.Block.arith (E.Engine.means engine).enc (standing (8 * length message.now) memory.new)))) }
{
    let Answer { outcome, slip } = Open::new(engine, memory);
    let _ = settle(slip);
    let mut opened = outcome.ok()?;
    add_all(&mut opened, memory, message, piece)?;
    put_round(&mut opened, memory, message, edits, tag)?;
    if message.len() > bits::MEMORY_BYTES || opened.bits() as usize != 8 * message.len() {
        return None;
    }
    carried(opened.tag(memory, tag))
}
