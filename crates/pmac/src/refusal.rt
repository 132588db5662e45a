// The number under which a fault is told, and an engine's fault as this crate's own.
ghost use Rattle.std.specs.Prelude.{◌≡◌};
ghost use Rattle.pmac.specs.Sealing.{tag_refusal};
ghost use Rattle.pmac.specs.declared.fault.TagFault.TheVariants.{Engine as by_engine};

use crate::TagFault;
use engine::{EngineFault, Numbered};

impl Numbered for TagFault {
    ghost refusal = { tag_refusal };

    fn number(self) -> u32 {
        match self {
            TagFault::Memory => 2,
            TagFault::Engine(fault) => fault.number(),
        }
    }
}

// The clause of `full_tag` names the error that `?` makes.
impl From<EngineFault> for TagFault {
    ghost from_gives = { λ e r. r ≡ by_engine e };

    fn from(fault: EngineFault) -> TagFault {
        TagFault::Engine(fault)
    }
}
