// Offsets of blocks.
ghost use Rattle.std.specs.Prelude.{◌≡◌};
ghost use Rattle.pmac.specs.Pmac.{doubled as doubled_of, offset as offset_of};

use block::Block;

// `x` doubled `times` times.
pub(crate) fn doubled<B: Block>(x: B, times: u32) -> B
    ensures { result ≡ doubled_of B.Block.arith times x }
{
    (0..times).fold(x, |x, _| x.double())
}

// The offset of block `i`, from the bits of its Gray number.
pub(crate) fn offset<B: Block>(l: B, i: usize) -> B
    ensures { result ≡ offset_of B.Block.arith l i }
{
    let mut g = i ^ (i >> 1);
    let mut x = l;
    let mut sum = B::zero();
    // The highest bit is the last; each bit's doubling goes on from the one before.
    while g > 0 {
        if g % 2 == 1 {
            sum = sum.xor(x);
        }
        x = x.double();
        g /= 2;
    }
    sum
}
