// An open overlay.
ghost use Rattle.std.specs.Prelude.{◌≡◌};

use engine::Engine;

// What is kept of an overlay between calls: the engine, the bits standing, L, and the sum of Y over the blocks
// before the last. The memory is handed to each call.
#[derive(Drop)]
pub struct Open<E: Engine> {
    pub(crate) engine: E,
    pub(crate) bits: u32,
    pub(crate) l: E::Block,
    pub(crate) sum: E::Block,
}

impl<E: Engine> Open<E> {
    // The bits standing.
    pub fn bits(&self) -> u32
        ensures { result ≡ self.now.bits }
    {
        self.bits
    }

    // The operations that the engine has left.
    pub fn left(&self) -> u32
        ensures { result ≡ (E.Engine.means self.now.engine).left }
    {
        self.engine.left()
    }
}
