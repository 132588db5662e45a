// The tests that calls share, each with its refusal, and the blocks that they are about.
ghost use Rattle.std.specs.Prelude.{◌≡◌, ◌+◌, ◌-◌, ◌*◌, ◌≤◌, true, length, take, is_ok, IfOk};
ghost use Rattle.block.specs.Arith.{to_bytes};
ghost use Rattle.bits.specs.Blocks.{blocks};
ghost use Rattle.pmac.specs.Edits.{touched_from, touched as touched_of};
ghost use Rattle.overlay.specs.Receiving.{same};
ghost use Rattle.overlay.specs.Tests.{tested, fits, offers, reaches, leaves, tags, fills, has};

use crate::OverlayFault;
use bits::Bits;
use block::Block;
use std::ops::Range;

// The memory's first `bits` bits; refusal 2, unless it is no larger than allowed and holds them.
pub(crate) fn fit(memory: &[u8], bits: u32) -> Result<Bits<'_>, OverlayFault>
    ensures test { tested result ≡ fits memory.now bits }
    ensures bits { IfOk result (λ b. (b.memory.now ≡ memory.now) × (b.len ≡ bits)) }
{
    Bits::new(memory, bits as usize).ok_or(OverlayFault::Memory)
}

// Refusal 3, unless `count` bits are handed in.
pub(crate) fn enough(edit: &[u8], count: u32) -> Result<(), OverlayFault>
    ensures { result ≡ offers edit.now count }
{
    if edit.len() < (count as usize).div_ceil(8) {
        return Err(OverlayFault::Edit);
    }
    Ok(())
}

// Refusal 4, unless the bits standing reach to `end`.
pub(crate) fn within(bits: u32, end: usize) -> Result<(), OverlayFault>
    ensures { result ≡ reaches bits end }
{
    if (bits as usize) < end {
        return Err(OverlayFault::Range);
    }
    Ok(())
}

// Refusal 5, unless the memory has bits up to `end`.
pub(crate) fn room(memory: &[u8], end: usize) -> Result<(), OverlayFault>
    requires { length memory.now ≤ 65536 }
    ensures { result ≡ leaves memory.now end }
{
    if 8 * memory.len() < end {
        return Err(OverlayFault::Room);
    }
    Ok(())
}

// Refusal 6, unless a tag may have that many bytes.
pub(crate) fn tag_length<B: Block>(bytes: usize) -> Result<(), OverlayFault>
    ensures { result ≡ tags B.Block.arith bytes }
{
    match bytes {
        4 | 8 | 12 | 16 if bytes <= B::size() => Ok(()),
        _ => Err(OverlayFault::TagLength),
    }
}

// Refusal 6, unless a full tag has that many bytes.
pub(crate) fn full_length<B: Block>(bytes: usize) -> Result<(), OverlayFault>
    ensures { result ≡ fills B.Block.arith bytes }
{
    if bytes == B::size() {
        Ok(())
    } else {
        Err(OverlayFault::TagLength)
    }
}

// Refusal 7, unless block `number` is a whole block of `bits` bits.
pub(crate) fn whole_block<B: Block>(bits: u32, number: u32) -> Result<(), OverlayFault>
    ensures answer { result ≡ has B.Block.arith bits number }
    ensures counted { is_ok result ≡ true → number ≤ blocks B.Block.arith bits }
{
    if number == 0 || (bits as usize) < number as usize * 8 * B::size() {
        return Err(OverlayFault::BlockNumber);
    }
    Ok(())
}

// Whether two byte strings of one length are the same; looks at every byte.
pub(crate) fn same_bytes(a: &[u8], b: &[u8]) -> bool
    requires { length a.now ≡ length b.now }
    ensures { result ≡ same a.now b.now }
{
    let mut right = true;
    for (x, y) in a.iter().zip(b) {
        right &= x == y;
    }
    right
}

// The blocks from the last of `low` bits up to the last of `high`, which are no fewer.
pub(crate) fn blocks_between<B: Block>(low: u32, high: u32) -> Range<usize>
    requires ordered { low ≤ high }
    requires small { high ≤ 524288 }
    ensures from { result.start ≡ blocks B.Block.arith low }
    ensures to { result.end ≡ blocks B.Block.arith high }
    ensures some { 1 ≤ result.start }
    ensures rising { result.start ≤ result.end }
    ensures few { result.end ≤ 65536 }
    ensures inside { 8 * ((result.end - 1) * B.Block.arith.size) ≤ high }
{
    bits::block_count::<B>(low as usize)..bits::block_count::<B>(high as usize)
}

// The blocks before the last that hold one of `count` bits from `position` on, which stand.
pub(crate) fn touched_blocks<B: Block>(bits: u32, position: u32, count: u32) -> Range<usize>
    requires within { position + count ≤ bits }
    requires small { bits ≤ 524288 }
    ensures from { result.start ≡ touched_from B.Block.arith position }
    ensures count { result.end - result.start ≡ touched_of B.Block.arith bits position count }
    ensures some { 1 ≤ result.start }
    ensures rising { result.start ≤ result.end }
    ensures few { result.end ≤ 65537 }
    ensures inside { 8 * ((result.end - 1) * B.Block.arith.size) ≤ bits }
{
    let width = 8 * B::size();
    let from = position as usize / width + 1;
    if count == 0 {
        return from..from;
    }
    let behind = (position as usize + count as usize).div_ceil(width) + 1;
    let to = behind.min(bits::block_count::<B>(bits as usize));
    from..to
}

// Writes the first bytes of a block over `buffer`.
pub(crate) fn write_front<B: Block>(block: B, buffer: &mut [u8])
    requires { length buffer.old ≤ B.Block.arith.size }
    ensures { buffer.new ≡ take (length buffer.old) (to_bytes B.Block.arith block) }
{
    let size = B::size();
    let mut bytes = [0u8; 16];
    block.write(&mut bytes[..size]);
    buffer.copy_from_slice(&bytes[..buffer.len()]);
}
