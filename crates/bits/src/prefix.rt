// Bits of a memory, from its first on.
ghost use Rattle.std.specs.Prelude.{◌*◌, ◌≤◌, length};

// The first `len` bits of a memory, which holds them.
#[derive(Clone, Copy)]
pub struct Bits<'a> {
    pub memory: &'a [u8],
    pub len: usize,
    ghost inside: { len ≤ 8 * length memory.now },
}
