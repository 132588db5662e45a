// What one call comes to.
ghost use Rattle.std.specs.Prelude.{◌≡◌, [], ◌∷◌};
ghost use Rattle.overlay.specs.Refusals.{carried, refused as refused_by, overlay_refusal, outcome as overlay_outcome};
ghost use Rattle.history.specs.Desk.{engine as engine_back, turn, untouched};
ghost use Rattle.history.specs.Views.{kept, said_of, turn_of};

use crate::{CallFault, Said, Stage, Stepped, TagBytes};
use engine::Engine;
use overlay::{Answer, OverlayFault, Refused, Slip};

impl<E: Engine> Stepped<E> {
    // The overlay's state does not take the call.
    pub(crate) fn silent(stage: Stage<E>) -> Self
        ensures { turn_of E.Engine.means result [] ≡ untouched (kept E.Engine.means stage) [] }
    {
        Stepped {
            stage,
            said: None,
            slip: None,
        }
    }

    // The overlay after a call, what the call said, and its slip.
    pub(crate) fn told(stage: Stage<E>, said: Said, slip: Slip) -> Self
        ensures { turn_of E.Engine.means result [] ≡ record { answer = said_of said; overlay = kept E.Engine.means stage; memory = []; slip = slip.count ∷ [] } }
    {
        Stepped {
            stage,
            said: Some(said),
            slip: Some(slip),
        }
    }

    // After a call that gives no bytes.
    pub(crate) fn after(stage: Stage<E>, answer: Answer) -> Self
        ensures { turn_of E.Engine.means result [] ≡ turn (overlay_outcome answer.outcome) [] (kept E.Engine.means stage) [] answer.slip.count }
    {
        let Answer { outcome, slip } = answer;
        match outcome {
            Ok(()) => Stepped::carried(stage, slip),
            Err(fault) => Stepped::refused(stage, fault, slip),
        }
    }

    // After a call that was carried out and gives no bytes.
    pub(crate) fn carried(stage: Stage<E>, slip: Slip) -> Self
        ensures { turn_of E.Engine.means result [] ≡ turn carried [] (kept E.Engine.means stage) [] slip.count }
    {
        Stepped::told(stage, Ok(TagBytes::none()), slip)
    }

    // After a call of an overlay that was refused.
    pub(crate) fn refused(stage: Stage<E>, fault: OverlayFault, slip: Slip) -> Self
        ensures { turn_of E.Engine.means result [] ≡ turn (refused_by (overlay_refusal fault)) [] (kept E.Engine.means stage) [] slip.count }
    {
        Stepped::told(stage, Err(CallFault::Overlay(fault)), slip)
    }

    // After open or receive that was refused: the engine is back.
    pub(crate) fn returned(refused: Refused<E>, slip: Slip) -> Self
        ensures { turn_of E.Engine.means result [] ≡ turn (refused_by (overlay_refusal refused.fault)) [] (engine_back (E.Engine.means refused.back)) [] slip.count }
    {
        let Refused { fault, back } = refused;
        Stepped::refused(Stage::Returned(back), fault, slip)
    }
}
