// What an overlay tells of itself in each of its states.
ghost use Rattle.std.specs.Prelude.{◌≡◌};
ghost use Rattle.history.specs.Desk.{bits_in, left_in};
ghost use Rattle.history.specs.Views.{kept};

use crate::Stage;
use engine::Engine;

impl<E: Engine> Stage<E> {
    // The bits standing.
    pub fn bits(&self) -> u32
        ensures { result ≡ bits_in (kept E.Engine.means self.now) }
    {
        match self {
            Stage::Returned(_) => 0,
            Stage::Received(received) => received.bits(),
            Stage::Opened(opened) => opened.bits(),
        }
    }

    // The operations that the engine has left.
    pub fn left(&self) -> u32
        ensures { result ≡ left_in (kept E.Engine.means self.now) }
    {
        match self {
            Stage::Returned(engine) => engine.left(),
            Stage::Received(received) => received.left(),
            Stage::Opened(opened) => opened.left(),
        }
    }
}
