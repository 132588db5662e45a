// Histories: any list of calls on one overlay, against the plain reckoning of its bits, operations, totals and slips.
#![tactic(auto)]

mod answer;
mod call;
mod calls;
mod fault;
mod laws;
mod refusal;
mod restoring;
mod run;
mod stage;
mod stepped;
mod tag;

pub use answer::{Reply, Said, Stage, Stepped};
pub use call::{Beginning, Call};
pub use calls::step;
pub use fault::CallFault;
pub use laws::reckoning_stands;
pub use restoring::restore;
pub use run::replay;
pub use tag::TagBytes;
