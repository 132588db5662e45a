// A received overlay, and what checking one works out.
ghost use Rattle.std.specs.Prelude.{◌≡◌};

use engine::Engine;
use pmac::SealedBits;

// An overlay whose tag is not known to be right. It can be checked or recovered, and nothing else: edits and tags are of
// `Open` alone.
#[derive(Drop)]
pub struct Received<E: Engine> {
    pub(crate) engine: E,
    pub(crate) bits: u32,
}

impl<E: Engine> Received<E> {
    // The bits standing.
    pub fn bits(&self) -> u32
        ensures { result ≡ self.now.bits }
    {
        self.bits
    }

    // The operations that the engine has left.
    pub fn left(&self) -> u32
        ensures { result ≡ (E.Engine.means self.now.engine).left }
    {
        self.engine.left()
    }
}

// What a check worked out, for how many operations: L and the sum, if the tag handed in is right.
#[derive(Drop)]
pub(crate) struct Examined<B> {
    pub(crate) opened: Option<SealedBits<B>>,
    pub(crate) due: u32,
}
