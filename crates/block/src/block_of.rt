ghost use Rattle.std.specs.Prelude.{◌*◌, ◌^◌, ◌<◌};

// A block of `SIZE` bytes, the first bit highest.
#[derive(Clone, Copy, PartialEq, Eq)]
pub struct BlockOf<const SIZE: usize> {
    pub(crate) value: u128,
    ghost fits: { value < 2 ^ (8 * SIZE) },
}

pub type Block64 = BlockOf<8>;

pub type Block128 = BlockOf<16>;
