// The two widths of blocks, and the arithmetic of both.
ghost use Rattle.std.specs.Prelude.{◌≡◌, ℕ, length};
ghost use Rattle.std.specs.Int.{w128, to_be_bytes};
ghost use Rattle.block.specs.Width.{IsWidth, reduced, halving, value_of};
ghost use Rattle.block.specs.WidthLemmas.{width64, width128};
ghost use Rattle.block.specs.Blocks.{arith, make};
ghost use Rattle.block.specs.Laws.{laws};

use crate::{Block, Block64, Block128, BlockOf};

// What sets a width of blocks apart: the number that doubling reduces by.
pub trait Width<const SIZE: usize> {
    ghost REDUCTION: { ℕ };

    ghost sound: { IsWidth SIZE REDUCTION };

    const REDUCTION: u128;
}

impl Width<8> for Block64 {
    ghost REDUCTION = { 0x1B };

    ghost sound = { width64 };

    const REDUCTION: u128 = 0x1B;
}

impl Width<16> for Block128 {
    ghost REDUCTION = { 0x87 };

    ghost sound = { width128 };

    const REDUCTION: u128 = 0x87;
}

impl<const SIZE: usize> BlockOf<SIZE>
where
    BlockOf<SIZE>: Width<SIZE>,
{
    // The block of a number's lowest bits.
    pub fn new(value: u128) -> Self
        ensures { result ≡ make SIZE value }
    {
        let value = value & (u128::MAX >> (128 - 8 * SIZE));
        BlockOf { value }
    }

    pub fn value(self) -> u128
        ensures { result ≡ self.entry.value }
    {
        self.value
    }

    // The number that halving reduces by: half of that of doubling, below a first bit of 1.
    fn halving() -> u128
        ensures { result ≡ halving SIZE ⟦<Self as Width<SIZE>>⟧.REDUCTION }
    {
        (1 << (8 * SIZE - 1)) | (Self::REDUCTION >> 1)
    }

    // The block of what was shifted, ⊕ed with `number` where the bit that was shifted out is 1.
    fn reduced(out: u128, number: u128, shifted: u128) -> Self
        ensures { result ≡ make SIZE (reduced out number shifted) }
    {
        Self::new(if out == 0 { shifted } else { shifted ^ number })
    }

    // The bytes of the number at 128 bits, high byte first: the last ones are the block's.
    fn wide_bytes(self) -> [u8; 16]
        ensures { result ≡ to_be_bytes w128 self.entry.value }
    {
        u128::to_be_bytes(self.value)
    }

    // The number in `bytes`, high byte first.
    fn number(bytes: &[u8]) -> u128
        requires { length bytes.now ≡ SIZE }
        ensures { result ≡ value_of SIZE bytes.now }
    {
        let mut padded = [0u8; 16];
        padded[16 - SIZE..].copy_from_slice(bytes);
        u128::from_be_bytes(padded)
    }
}

impl<const SIZE: usize> Block for BlockOf<SIZE>
where
    BlockOf<SIZE>: Width<SIZE>,
{
    ghost arith = { arith SIZE ⟦<Self as Width<SIZE>>⟧.REDUCTION };

    ghost laws = { laws SIZE ⟦<Self as Width<SIZE>>⟧.REDUCTION ⟦<Self as Width<SIZE>>⟧.sound };

    fn size() -> usize {
        SIZE
    }

    fn zero() -> Self {
        Self::new(0)
    }

    fn xor(self, other: Self) -> Self {
        Self::new(self.value ^ other.value)
    }

    fn double(self) -> Self {
        let first = self.value >> (8 * SIZE - 1);
        Self::reduced(first, Self::REDUCTION, self.value << 1)
    }

    fn halve(self) -> Self {
        let last = self.value % 2;
        Self::reduced(last, Self::halving(), self.value >> 1)
    }

    fn read(bytes: &[u8]) -> Self {
        Self::new(Self::number(bytes))
    }

    fn write(self, bytes: &mut [u8]) {
        bytes.copy_from_slice(&self.wide_bytes()[16 - SIZE..]);
    }
}
