// Blocks of 64 and of 128 bits: ⊕, doubling, halving, and their bytes.
#![tactic(auto)]

mod block_of;
mod width;

ghost use Rattle.std.specs.Prelude.{◌≡◌, length};
ghost use Rattle.block.specs.Arith.{Arith, Laws, BytesReadBack, from_bytes, to_bytes};

pub use block_of::{Block64, Block128, BlockOf};
pub use width::Width;

// The arithmetic of one width of blocks, with the laws that all code above rests on.
pub trait Block: Copy {
    ghost arith: { Arith Self };

    // The bytes in a block.
    fn size() -> usize
        ensures { result ≡ arith.size };

    // The block of zero bits.
    fn zero() -> Self
        ensures { result ≡ arith.zero };

    // Bitwise exclusive or, ⊕.
    fn xor(self, other: Self) -> Self
        ensures { result ≡ arith.plus self other };

    fn double(self) -> Self
        ensures { result ≡ arith.double self };

    // Undoes `double`.
    fn halve(self) -> Self
        ensures { result ≡ arith.halve self };

    // The block in `bytes`, high byte first.
    fn read(bytes: &[u8]) -> Self
        requires { length bytes.now ≡ arith.size }
        ensures { result ≡ from_bytes arith bytes.now };

    // Writes the block into `bytes`, high byte first.
    fn write(self, bytes: &mut [u8])
        requires { length bytes.old ≡ arith.size }
        ensures { bytes.new ≡ to_bytes arith self };

    ghost laws: { Laws arith };
}

// At every width a block's bytes read back as that block, and the reverse.
pub fn bytes_read_back<B: Block>()
    ensures { BytesReadBack B.Block.arith }
{}

#[cfg(test)]
mod tests {
    use super::*;

    // The block in `bytes` gives way to its double, through the bound alone.
    fn double_in_place<B: Block>(bytes: &mut [u8])
        requires { length bytes.old ≡ B.Block.arith.size }
    {
        B::read(bytes).double().write(bytes);
    }

    fn halve_in_place<B: Block>(bytes: &mut [u8])
        requires { length bytes.old ≡ B.Block.arith.size }
    {
        B::read(bytes).halve().write(bytes);
    }

    // x ⊕ x ⊕ zero.
    fn cancel_in_place<B: Block>(bytes: &mut [u8])
        requires { length bytes.old ≡ B.Block.arith.size }
    {
        let block = B::read(bytes);
        block.xor(block).xor(B::zero()).write(bytes);
    }

    fn size_of<B: Block>() -> usize {
        B::size()
    }

    // The constants are those of PMAC: 1B hex at 64 bits, 87 at 128.
    #[test]
    fn narrow(rt: HostRuntime) {
        let mut bytes = [0x80, 0, 0, 0, 0, 0, 0, 0];
        double_in_place::<Block64>(&mut bytes);
        assert_eq!(rt; bytes, [0, 0, 0, 0, 0, 0, 0, 0x1B]);
        halve_in_place::<Block64>(&mut bytes);
        assert_eq!(rt; bytes, [0x80, 0, 0, 0, 0, 0, 0, 0]);
        let mut bytes = [0, 0, 0, 0, 0, 0, 0, 1];
        halve_in_place::<Block64>(&mut bytes);
        assert_eq!(rt; bytes, [0x80, 0, 0, 0, 0, 0, 0, 0x0D]);
        cancel_in_place::<Block64>(&mut bytes);
        assert_eq!(rt; bytes, [0; 8]);
        assert_eq!(rt; size_of::<Block64>(), 8);
        assert_eq!(rt; Block64::new(1).double().value(), 2);
        assert_eq!(rt;
            Block64::read(&[1, 2, 3, 4, 5, 6, 7, 8]).value(),
            0x01020304_05060708
        );
    }

    #[test]
    fn wide(rt: HostRuntime) {
        let mut bytes = [0x80, 0, 0, 0, 0, 0, 0, 0, 0, 0, 0, 0, 0, 0, 0, 0];
        double_in_place::<Block128>(&mut bytes);
        assert_eq!(rt; bytes, [0, 0, 0, 0, 0, 0, 0, 0, 0, 0, 0, 0, 0, 0, 0, 0x87]);
        halve_in_place::<Block128>(&mut bytes);
        assert_eq!(rt; bytes, [0x80, 0, 0, 0, 0, 0, 0, 0, 0, 0, 0, 0, 0, 0, 0, 0]);
        let mut bytes = [0, 0, 0, 0, 0, 0, 0, 0, 0, 0, 0, 0, 0, 0, 0, 1];
        halve_in_place::<Block128>(&mut bytes);
        assert_eq!(rt;
            bytes,
            [0x80, 0, 0, 0, 0, 0, 0, 0, 0, 0, 0, 0, 0, 0, 0, 0x43]
        );
        cancel_in_place::<Block128>(&mut bytes);
        assert_eq!(rt; bytes, [0; 16]);
        assert_eq!(rt; size_of::<Block128>(), 16);
        assert_eq!(rt; Block128::new(1).double().value(), 2);
        assert_eq!(rt;
            Block128::read(&[1, 2, 3, 4, 5, 6, 7, 8, 9, 10, 11, 12, 13, 14, 15, 16]).value(),
            0x01020304_05060708_090A0B0C_0D0E0F10
        );
    }
}
