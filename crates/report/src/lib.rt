// What the programs print, as text that is proved.
#![tactic(auto)]

mod arguments;
mod cipher;
mod digits;
mod fault;
mod seal;
mod vector;

pub use arguments::{engine_names, seal_input, seal_key};
pub use cipher::{Cipher, UnknownCipher};
pub use digits::unhex;
use fault::SealFault;
use seal::Sealed;
pub use seal::seal_text;
pub use vector::{Kind, UnknownKind, Vector};
