// AES-128 to FIPS 197, both ways, as an engine.
#![tactic(auto)]

mod aes128;
mod cipher;
mod columns;
mod inv_tables;
mod keys;
mod rounds;
mod schedule;
mod tables;
mod theorems;
mod way;
mod way_keys;
mod words;

pub use aes128::Aes128;
pub use keys::RoundKeys;
pub use theorems::{boxes_undo, inverse_is_one, published_examples, rounds_undo, steps_undo};
