// Bits written into a memory at any position, and whole blocks.
ghost use Rattle.std.specs.Prelude.{◌≡◌, ℕ, ◌+◌, ◌-◌, ◌*◌, ◌<◌, ◌≤◌, length, take, drop};
ghost use Rattle.std.proofs.Math.Seq.{paste};
ghost use Rattle.block.specs.Bits.{bits as bits_in, bits_of};
ghost use Rattle.bits.specs.Memory.{written, replaced};

use block::Block;

// Writes the first `count` bits of `edit` at bit `position` of the memory; every other bit stays.
// An edit may be longer than the largest memory, so it comes as bytes and a count and not as `Bits`.
pub fn write_bits(memory: &mut [u8], position: usize, edit: &[u8], count: usize)
    requires room { position + count ≤ 8 * length memory.old }
    requires given { count ≤ 8 * length edit.now }
    requires small { length memory.old ≤ 65536 }
    ensures { memory.new ≡ written memory.old position edit.now count }
{
    if position % 8 == 0 {
        copy_bits(memory, position / 8, edit, count);
    } else {
        splice_bits(memory, position, edit, count);
    }
}

// Writes block `i` of the memory, counted from 1; every other byte stays.
pub fn write_block<B: Block>(memory: &mut [u8], i: usize, block: B)
    requires numbered { 1 ≤ i }
    requires inside { i * B.Block.arith.size ≤ length memory.old }
    ensures { memory.new ≡ replaced B.Block.arith memory.old i block }
{
    let size = B::size();
    let start = (i - 1) * size;
    block.write(&mut memory[start..start + size]);
}

// From a byte's first bit on: whole bytes are copied, and only the bits behind them spliced.
fn copy_bits(memory: &mut [u8], start: usize, edit: &[u8], count: usize)
    requires room { 8 * start + count ≤ 8 * length memory.old }
    requires given { count ≤ 8 * length edit.now }
    requires small { length memory.old ≤ 65536 }
    ensures { bits_of memory.new ≡ paste (bits_of memory.old) (8 * start) (bits_of edit.now) count }
{
    let whole = count / 8;
    memory[start..start + whole].copy_from_slice(&edit[..whole]);
    splice_bits(memory, 8 * (start + whole), &edit[whole..], count % 8);
}

// Byte by byte, each with the bits that fall into it.
fn splice_bits(memory: &mut [u8], position: usize, edit: &[u8], count: usize)
    requires room { position + count ≤ 8 * length memory.old }
    requires given { count ≤ 8 * length edit.now }
    requires small { length memory.old ≤ 65536 }
    ensures { bits_of memory.new ≡ paste (bits_of memory.old) position (bits_of edit.now) count }
{
    let mut done = 0;
    // A turn takes the bits that fall into one byte, up to eight.
    while done < count {
        let at = position + done;
        let some = (count - done).min(8 - at % 8);
        let piece = window(edit, done);
        memory[at / 8] = spliced(memory[at / 8], at % 8, piece, some);
        done += some;
    }
}

// Eight bits of `edit` from bit `from` on, with zeros past its end.
fn window(edit: &[u8], from: usize) -> u8
    requires { from < 8 * length edit.now }
    ensures { (c : ℕ) → c ≤ 8 → from + c ≤ 8 * length edit.now → take c (bits_in 8 result) ≡ take c (drop from (bits_of edit.now)) }
{
    let k = from / 8;
    let next = edit.get(k + 1).copied().unwrap_or(0);
    let both = u16::from_be_bytes([edit[k], next]);
    let [piece, _] = (both << (from % 8)).to_be_bytes();
    piece
}

// `old` with the first `count` bits of `piece` in place of those from bit `from` on.
fn spliced(old: u8, from: usize, piece: u8, count: usize) -> u8
    requires { from + count ≤ 8 }
    ensures { bits_in 8 result ≡ paste (bits_in 8 old) from (bits_in 8 piece) count }
{
    let word = u32::from(old);
    let behind = 8 - from - count;
    let head = word >> (8 - from);
    let middle = u32::from(piece) >> (8 - count);
    let tail = word % (1 << behind);
    ((((head << count) | middle) << behind) | tail) as u8
}
