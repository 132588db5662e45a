// The text that sealing one overlay prints.
ghost use Rattle.std.specs.Prelude.{◌≡◌, ◌+◌, ◌*◌, ◌≤◌, true, [], List, ℕ, length, set, IfOk, IfSome, Some, string_bytes};
ghost use Rattle.block.specs.Arith.{to_bytes};
ghost use Rattle.bits.specs.Blocks.{blocks as blocks_of};
ghost use Rattle.hex.specs.Hex.{encode_lower};
ghost use Rattle.overlay.specs.Judging.{taggable};
ghost use Rattle.overlay.specs.Laws.{Stands};
ghost use Rattle.overlay.specs.Ledger.{at};
ghost use Rattle.overlay.specs.Views.{state};
ghost use Rattle.report.specs.Calls.{Handed, came, sealing};
ghost use Rattle.report.specs.Seal.{tag_line, refusal_line, seal_of, seal_under, seal_by, under_header};
ghost use Rattle.report.specs.Shown.{sealed_line, Prints};

use crate::{Cipher, SealFault, engine_names};
use aes::Aes128;
use block::Block;
use engine::{Engine, Keyed, Numbered};
use overlay::{Answer, Ledger, Open, OverlayFault, Slip};
use std::alloc::{AllocError, Global};
use std::fmt;
use xtea::Xtea;

// The operations that a program's engine is made with.
pub(crate) const ALLOWANCE: u32 = 1_000_000;

// A sealed overlay: its bits and blocks, the operations that were due, and its tag in hex.
#[derive(Drop)]
pub(crate) struct Sealed {
    bits: usize,
    blocks: usize,
    operations: u32,
    tag: String,
}

impl fmt::Display for Sealed {
    ghost output = { λ sealed. Some (sealed_line sealed) };

    fn fmt<W: fmt::Write>(&self, f: &mut fmt::Formatter<W>) -> fmt::Result {
        let Sealed {
            bits,
            blocks,
            operations,
            tag,
        } = self;
        write!(f, "{bits} {blocks} {operations} {tag}")
    }
}

// The text for a message under a key.
pub fn seal_text(
    alloc: Global,
    cipher: Cipher,
    key: &[u8],
    message: &[u8],
) -> Result<String, AllocError>
    ensures { IfOk result (λ s. string_bytes s ≡ under_header (seal_by cipher key.now message.now)) }
{
    text_of(alloc, seal(alloc, cipher, key, message))
}

// What is printed for what sealing came to.
pub(crate) fn text_of(
    alloc: Global,
    outcome: Result<Sealed, SealFault>,
) -> Result<String, AllocError>
    ensures { (text : List ℕ) → Prints outcome text → IfOk result (λ s. string_bytes s ≡ text) }
{
    match outcome {
        Ok(sealed) => under_header(alloc, &sealed),
        Err(SealFault::UnknownCipher(_)) => engine_names(alloc),
        Err(SealFault::Entry(fault)) => refused(alloc, fault),
        Err(SealFault::Key(fault)) => refused(alloc, fault),
        Err(SealFault::Overlay(fault)) => refused(alloc, fault),
        Err(SealFault::OutOfMemory(error)) => Err(error),
    }
}

// The header, and a line under it.
fn under_header<L: fmt::Display>(alloc: Global, line: &L) -> Result<String, AllocError>
    ensures { IfSome (L.output line.now) (λ shown. IfOk result (λ s. string_bytes s ≡ under_header shown)) }
{
    format!(in alloc; "bits blocks operations tag\n{line}\n")
}

// The header, and a refusal's number under it.
fn refused<F: Numbered>(alloc: Global, fault: F) -> Result<String, AllocError>
    ensures { IfOk result (λ s. string_bytes s ≡ under_header (refusal_line (F.refusal fault).number)) }
{
    let number = fault.number();
    let line = format!(in alloc; "refusal {number}")?;
    under_header(alloc, &line)
}

// Seals a message under a key.
pub(crate) fn seal(
    alloc: Global,
    cipher: Cipher,
    key: &[u8],
    message: &[u8],
) -> Result<Sealed, SealFault>
    ensures { Prints result (under_header (seal_by cipher key.now message.now)) }
{
    match cipher {
        Cipher::Aes => seal_under::<Aes128>(alloc, key, message),
        Cipher::Xtea => seal_under::<Xtea>(alloc, key, message),
    }
}

// Seals a message under a key of one cipher, whose blocks have a tag's length.
fn seal_under<C: Keyed + Drop>(
    alloc: Global,
    key: &[u8],
    message: &[u8],
) -> Result<Sealed, SealFault>
    requires { taggable C.Block.Block.arith C.Block.Block.arith.size ≡ true }
    ensures { Prints result (under_header (seal_under C.Block.Block.arith (C.made key.now 1000000) message.now)) }
{
    let engine = C::new(key, ALLOWANCE)?;
    seal_by_engine(alloc, engine, message)
}

// Seals a message in a memory that is as long.
fn seal_by_engine<E: Engine + Drop>(
    alloc: Global,
    engine: E,
    message: &[u8],
) -> Result<Sealed, SealFault>
    requires { taggable E.Block.Block.arith E.Block.Block.arith.size ≡ true }
    ensures { Prints result (under_header (seal_of E.Block.Block.arith (E.Engine.means engine) message.now)) }
{
    if message.len() > bits::MEMORY_BYTES {
        return Err(SealFault::Overlay(OverlayFault::Memory));
    }
    let mut memory = vec![in alloc; 0u8; message.len()]?;
    let mut tag = vec![in alloc; 0u8; E::Block::size()]?;
    let operations = make_calls(engine, &mut memory, message, &mut tag)?;
    Ok(sealed_of::<E::Block>(alloc, message.len(), operations, &tag)?)
}

// What is shown of a sealed message of `len` bytes, with the tag's bytes.
fn sealed_of<B: Block>(
    alloc: Global,
    len: usize,
    operations: u32,
    tag: &[u8],
) -> Result<Sealed, AllocError>
    requires { len ≤ 65536 }
    ensures { IfOk result (λ sealed. sealed_line sealed ≡ tag_line (8 * len) (blocks_of B.Block.arith (8 * len)) operations (encode_lower tag.now)) }
{
    let bits = 8 * len;
    Ok(Sealed {
        bits,
        blocks: bits::block_count::<B>(bits),
        operations,
        tag: hex::encode(alloc, tag)?,
    })
}

// Opens an overlay, adds all of a message and asks for the full tag. Answers the operations, which are all booked.
fn make_calls<E: Engine + Drop>(
    engine: E,
    memory: &mut [u8],
    message: &[u8],
    tag: &mut [u8],
) -> Result<u32, OverlayFault>
    requires { Handed E.Block.Block.arith memory.old message.now tag.old }
    ensures { came result tag.new ≡ sealing E.Block.Block.arith (E.Engine.means engine) message.now (blocks_of E.Block.Block.arith (8 * length message.now) + 1) }
{
    let mut ledger = Ledger::new(0);
    let Answer { outcome, slip } = Open::new(engine, memory);
    let opening = settle(&mut ledger, 0, slip);
    match outcome {
        Ok(mut opened) => {
            let rest = add_and_tag(&mut opened, &mut ledger, memory, message, tag)?;
            Ok(opening + rest)
        }
        Err(refused) => Err(refused.fault),
    }
}

// Adds all of a message to an empty overlay and asks for the full tag. Answers the operations of both calls.
fn add_and_tag<E: Engine>(
    opened: &mut Open<E>,
    ledger: &mut Ledger,
    memory: &mut [u8],
    message: &[u8],
    tag: &mut [u8],
) -> Result<u32, OverlayFault>
    requires empty { Stands E.Block.Block.arith (state E.Engine.means opened.old) memory.old [] }
    requires handed { Handed E.Block.Block.arith memory.old message.now tag.old }
    requires add_free { (at ledger.old.accounts 1).total ≡ 0 }
    requires tag_free { (at ledger.old.accounts 2).total ≡ 0 }
    ensures { came result tag.new ≡ sealing E.Block.Block.arith (E.Engine.means opened.old.engine) message.now (blocks_of E.Block.Block.arith (8 * length message.now)) }
{
    let Answer { outcome, slip } = opened.add(memory, message, 8 * message.len() as u32);
    let adding = settle(ledger, 1, slip);
    outcome?;
    let Answer { outcome, slip } = opened.tag(memory, tag);
    let tagging = settle(ledger, 2, slip);
    outcome?;
    Ok(adding + tagging)
}

// Books a slip into an account that holds nothing yet, which takes any slip; answers what the slip showed.
fn settle(ledger: &mut Ledger, account: u8, mut slip: Slip) -> u32
    requires numbered { account ≤ 15 }
    requires free { (at ledger.old.accounts account).total ≡ 0 }
    ensures shown { result ≡ slip.count }
    ensures booked { ledger.new.accounts ≡ set ledger.old.accounts account (record { total = slip.count; latest = slip.count }) }
{
    let shown = slip.shows();
    let _ = ledger.book(&mut slip, account);
    shown
}

// A block's bytes as hex.
pub(crate) fn block_hex<B: Block>(alloc: Global, block: B) -> Result<String, AllocError>
    ensures { IfOk result (λ s. string_bytes s ≡ encode_lower (to_bytes B.Block.arith block)) }
{
    let mut bytes = vec![in alloc; 0u8; B::size()]?;
    block.write(&mut bytes);
    hex::encode(alloc, bytes)
}
