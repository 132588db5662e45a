// Bits in a memory of bytes, read in blocks: position 0 first, the highest bit of a byte first.
#![tactic(auto)]

mod prefix;
mod write;

ghost use Rattle.std.specs.Prelude.{◌≡◌, ◌+◌, ◌-◌, ◌*◌, ◌<◌, ◌≤◌, true, false, not, ◌∷◌, ◌++◌, length, take, replicate, is_some, IfSome};
ghost use Rattle.block.specs.Bits.{bits as bits_in, bits_of};
ghost use Rattle.bits.specs.Blocks.{blocks, padded};
ghost use Rattle.bits.specs.Memory.{content, unfit, held, closing};

use block::Block;
pub use prefix::Bits;
pub use write::{write_bits, write_block};

// The largest memory, in bytes.
pub const MEMORY_BYTES: usize = 65_536;

// The last block of some bits.
#[derive(Clone, Copy)]
pub enum Last<B> {
    Whole(B),
    // A short block, with a 1 and zeros behind its bits.
    Padded(B),
}

// How many blocks `bits` bits have: at least one.
pub fn block_count<B: Block>(bits: usize) -> usize
    ensures { result ≡ blocks B.Block.arith bits }
{
    bits.div_ceil(8 * B::size()).max(1)
}

// Block `i` of the memory, counted from 1.
pub fn block_at<B: Block>(memory: &[u8], i: usize) -> B
    requires numbered { 1 ≤ i }
    requires inside { i * B.Block.arith.size ≤ length memory.now }
    ensures { result ≡ held B.Block.arith memory.now i }
{
    let size = B::size();
    let start = (i - 1) * size;
    B::read(&memory[start..start + size])
}

impl<'a> Bits<'a> {
    // The memory's first `len` bits, unless it is larger than allowed or holds fewer.
    pub fn new(memory: &'a [u8], len: usize) -> Option<Self>
        ensures test { is_some result ≡ not (unfit memory.now len) }
        ensures memory { IfSome result (λ bits. bits.memory.now ≡ memory.now) }
        ensures len { IfSome result (λ bits. bits.len ≡ len) }
        ensures small { IfSome result (λ bits. length bits.memory.now ≤ 65536) }
    {
        if memory.len() <= MEMORY_BYTES && len <= 8 * memory.len() {
            Some(Bits { memory, len })
        } else {
            None
        }
    }

    // The last block, padded where it is short.
    pub fn last_block<B: Block>(self) -> Last<B>
        ensures { result ≡ closing B.Block.arith (content self.entry) }
    {
        let size = B::size();
        let start = last_start::<B>(self.len);
        let rest = Bits {
            memory: &self.memory[start..],
            len: self.len - 8 * start,
        };
        if rest.len < 8 * size {
            Last::Padded(rest.padded_block())
        } else {
            Last::Whole(B::read(&rest.memory[..size]))
        }
    }

    // Bits short of a block, as a padded block.
    fn padded_block<B: Block>(self) -> B
        requires { self.len < 8 * B.Block.arith.size }
        ensures { result ≡ B.Block.arith.pack (padded B.Block.arith (content self.entry)) }
    {
        B::read(&self.padded_bytes()[..B::size()])
    }

    // The bits, then a 1 and zeros, to 128 bits; the memory may end right behind the bits.
    fn padded_bytes(self) -> [u8; 16]
        requires { self.len < 128 }
        ensures { bits_of result ≡ content self.entry ++ (true ∷ replicate (127 - self.entry.len) false) }
    {
        let full = self.len / 8;
        let mut bytes = [0u8; 16];
        bytes[..full].copy_from_slice(&self.memory[..full]);
        let next = self.memory.get(full).copied().unwrap_or(0);
        bytes[full] = closed(next, self.len % 8);
        bytes
    }
}

// The byte where the last block of `bits` bits begins.
fn last_start<B: Block>(bits: usize) -> usize
    ensures is { result ≡ (blocks B.Block.arith bits - 1) * B.Block.arith.size }
    ensures within { 8 * result ≤ bits }
    ensures near { bits ≤ 8 * result + 8 * B.Block.arith.size }
{
    (block_count::<B>(bits) - 1) * B::size()
}

// The first `k` bits of a byte, then a 1 and zeros.
fn closed(byte: u8, k: usize) -> u8
    requires { k < 8 }
    ensures { bits_in 8 result ≡ take k (bits_in 8 byte) ++ (true ∷ replicate (7 - k) false) }
{
    let cut = 7 - k;
    ((byte >> cut) | 1) << cut
}
