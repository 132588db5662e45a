// Keys as they are typed in: hexadecimal digits one by one, two to a byte, the high half first.
#![tactic(auto)]

mod digit;
mod entry;
mod fault;

ghost use Rattle.std.specs.Prelude.{◌≡◌, ℕ};
ghost use Rattle.std.specs.Str.{chars};
ghost use Rattle.keys.specs.Keys.{key_of, Verdicts};

pub use digit::digit_of;
pub use entry::{Entry, KEY_BYTES};
pub use fault::EntryFault;

// The key that a text spells, typed character by character.
pub fn key_from(text: &str) -> Result<[u8; KEY_BYTES], EntryFault>
    ensures { result ≡ key_of 16 (chars text.now) }
{
    let mut entry = Entry::new();
    entry.type_in(text)?;
    entry.key()
}

// What a text spells, said in full for every length of a key.
pub fn texts_judged()
    ensures { (n : ℕ) → Verdicts n }
{}

#[cfg(test)]
mod tests {
    use super::*;
    use engine::Numbered;

    const TEXT: &str = "0123456789abcdefFEDCBA9876543210";

    #[test]
    fn whole_key(rt: HostRuntime) {
        let key = 0x01234567_89ABCDEF_FEDCBA98_76543210_u128.to_be_bytes();
        assert_eq!(rt; key_from(TEXT), Ok(key));
    }

    #[test]
    fn refusals(rt: HostRuntime) {
        let mut entry = Entry::new();
        assert_eq!(rt; entry.key(), Err(EntryFault::Incomplete));
        assert_eq!(rt; entry.type_in(TEXT), Ok(()));
        assert_eq!(rt; entry.push('g'), Err(EntryFault::NoDigit));
        assert_eq!(rt; entry.push('0'), Err(EntryFault::Full));
        assert_eq!(rt; EntryFault::NoDigit.number(), 15);
        assert_eq!(rt; EntryFault::Full.number(), 1);
    }
}
