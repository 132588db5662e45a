// What a call of a history answers, and the overlay in its states.
use crate::{CallFault, TagBytes};
use engine::Engine;
use overlay::{Open, Received as ReceivedOverlay, Slip};

// What a call says: the bytes that it gives, or why it is refused.
pub type Said = Result<TagBytes, CallFault>;

// An overlay in one of its states.
#[derive(Drop)]
pub enum Stage<E: Engine> {
    // Open or receive was refused, and gave the engine back.
    Returned(E),
    Received(ReceivedOverlay<E>),
    Opened(Open<E>),
}

// What is told of one call of a history: what it said, and the bits standing and the operations left after it.
#[derive(Drop)]
pub struct Reply {
    pub said: Option<Said>,
    pub bits: u32,
    pub left: u32,
}

// After one call: the overlay, what the call said (nothing where the overlay's state does not take it), and its slip.
pub struct Stepped<E: Engine> {
    pub stage: Stage<E>,
    pub said: Option<Said>,
    pub slip: Option<Slip>,
}
