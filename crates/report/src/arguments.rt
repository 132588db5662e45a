// What the program `seal` prints for its arguments.
ghost use Rattle.std.specs.Prelude.{◌≡◌, IfOk, string_bytes};
ghost use Rattle.report.specs.Arguments.{engines, seal_input, seal_key};
ghost use Rattle.report.specs.Shown.{Prints};

use crate::seal::{seal, text_of};
use crate::{Cipher, SealFault, Sealed};
use keys::{KEY_BYTES, key_from};
use std::alloc::{AllocError, Global};

// The names of the ciphers, for whoever gave none of them.
pub fn engine_names(alloc: Global) -> Result<String, AllocError>
    ensures { IfOk result (λ s. string_bytes s ≡ engines) }
{
    String::from_str(alloc, "engines: aes xtea\n")
}

// The key is the input's first 16 bytes, and the message what follows.
pub fn seal_input(alloc: Global, name: &str, input: &[u8]) -> Result<String, AllocError>
    ensures { IfOk result (λ s. string_bytes s ≡ seal_input name.now input.now) }
{
    text_of(alloc, seal_split(alloc, name, input))
}

// The key is typed as hex digits, and the message is the whole input.
pub fn seal_key(alloc: Global, name: &str, digits: &str, input: &[u8]) -> Result<String, AllocError>
    ensures { IfOk result (λ s. string_bytes s ≡ seal_key name.now digits.now input.now) }
{
    text_of(alloc, seal_typed(alloc, name, digits, input))
}

fn seal_split(alloc: Global, name: &str, input: &[u8]) -> Result<Sealed, SealFault>
    ensures { Prints result (seal_input name.now input.now) }
{
    let cipher = name.parse::<Cipher>()?;
    let (key, message) = input.split_at(input.len().min(KEY_BYTES));
    seal(alloc, cipher, key, message)
}

fn seal_typed(alloc: Global, name: &str, digits: &str, input: &[u8]) -> Result<Sealed, SealFault>
    ensures { Prints result (seal_key name.now digits.now input.now) }
{
    let cipher = name.parse::<Cipher>()?;
    let key = key_from(digits)?;
    seal(alloc, cipher, &key, input)
}
