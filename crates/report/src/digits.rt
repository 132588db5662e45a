// Hex as bytes.
ghost use Rattle.std.specs.Char.{is_ascii_hexdigit};
ghost use Rattle.std.specs.List.{list_all};
ghost use Rattle.std.specs.Prelude.{◌≡◌, IfOk};
ghost use Rattle.report.specs.Hex.{unhexed, bytes_in};

use std::alloc::{AllocError, Global};

// The bytes that a text of hex digits spells; none where it has another character, or an odd number of digits.
pub fn unhex(alloc: Global, text: &str) -> Result<Option<Vec<u8>>, AllocError>
    ensures { IfOk result (λ o. bytes_in o ≡ unhexed text.now) }
{
    // Looks at the digits first: a text with a wrong one, or of an odd length, asks for no memory.
    if text.len() % 2 == 1 || !all_digits(text.as_bytes()) {
        return Ok(None);
    }
    let mut bytes = vec![in alloc; 0u8; text.len() / 2]?;
    match hex::decode_to_slice(text, &mut bytes) {
        Ok(()) => Ok(Some(bytes)),
        Err(_) => Ok(None),
    }
}

// Whether every byte is a hex digit. It looks at all of them, which is quicker than to stop at the first that is none.
fn all_digits(text: &[u8]) -> bool
    ensures { result ≡ list_all is_ascii_hexdigit text.now }
{
    let mut right = true;
    for byte in text {
        right &= byte.is_ascii_hexdigit();
    }
    right
}
