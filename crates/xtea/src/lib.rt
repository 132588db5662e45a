// XTEA, the block cipher of Needham and Wheeler, as an engine on blocks of 64 bits.
#![tactic(auto)]

mod cycles;

ghost use Rattle.std.specs.Prelude.{◌≡◌, length};
ghost use Rattle.xtea.specs.Xtea.{halves, joined, made, under, words, Published};
ghost use Rattle.xtea.specs.Blocks;

use block::Block64;
pub use cycles::cycles_undo;
use engine::{Cipher, KeyFault, KeyedCipher, Metered};
use std::array;

const KEY_BYTES: usize = 16;

const CYCLES: u32 = 32;

// The words of one key, and XTEA under it.
#[derive(Drop)]
pub struct KeyWords {
    key: [u32; 4],
}

// The engine.
pub type Xtea = Metered<KeyWords>;

impl Cipher for KeyWords {
    type Block = Block64;

    ghost maps = { λ c. under c.key };

    ghost undoes = { λ c left. Blocks.undoes c.key left };

    fn encipher(&self, block: Block64) -> Block64 {
        join(cycles::encipher(&self.key, CYCLES, split(block)))
    }

    fn decipher(&self, block: Block64) -> Block64 {
        join(cycles::decipher(&self.key, CYCLES, split(block)))
    }
}

impl KeyedCipher for KeyWords {
    ghost made = { made };

    fn with_key(key: &[u8]) -> Result<Self, KeyFault> {
        if key.len() != KEY_BYTES {
            return Err(KeyFault::Length);
        }
        Ok(KeyWords { key: words(key) })
    }
}

// The words of a key of 16 bytes, high byte first.
fn words(key: &[u8]) -> [u32; 4]
    requires { length key.now ≡ 16 }
    ensures { result ≡ words key.now }
{
    let (words, _) = key.as_chunks::<4>();
    array::from_fn(|i| u32::from_be_bytes(words[i]))
}

// A block's two words, the higher first.
fn split(block: Block64) -> (u32, u32)
    ensures { result ≡ halves block }
{
    let value = block.value();
    ((value >> 32) as u32, (value % (1 << 32)) as u32)
}

// The block of two words.
fn join(words: (u32, u32)) -> Block64
    ensures { result ≡ joined words }
{
    let (v, w) = words;
    Block64::new((u128::from(v) << 32) + u128::from(w))
}

// The definition gives the published example.
pub fn published_example()
    ensures { Published }
{}

#[cfg(test)]
mod tests {
    use super::*;
    use engine::{Cap, Cascade, Complement, Engine, Keyed, Mask};
    use std::test::Fail;

    const COUNTING: u128 = 0x00010203_04050607_08090A0B_0C0D0E0F;

    const LETTERS: u128 = 0x41424344_45464748;

    const SAME: u128 = 0x41414141_41414141;

    // Key, block, enciphered block: the vectors of libtomcrypt, src/ciphers/xtea.c, xtea_test.
    const PUBLISHED: [(u128, u128, u128); 10] = [
        (0, 0, 0xDEE9D4D8_F7131ED9),
        (0x1_00000002_00000003_00000004, 0, 0xA597AB41_76014D72),
        (
            0x3_00000004_00000005_00000006,
            0x1_00000002,
            0xB1FD5DA9_CC6DC9DC,
        ),
        (
            0x78695A4B_3C2D1E0F_F0E1D2C3_B4A59687,
            0xF0E1D2C3_B4A59687,
            0x704B3134_4744DFAB,
        ),
        (COUNTING, LETTERS, 0x497DF3D0_72612CB5),
        (COUNTING, SAME, 0xE78F2D13_744341D8),
        (COUNTING, 0x5A5B6E27_8948D77F, SAME),
        (0, LETTERS, 0xA0390589_F8B8EFA5),
        (0, SAME, 0xED23375A_821A8C2D),
        (0, 0x70E1225D_6E4E7655, SAME),
    ];

    fn both_ways(key: u128, block: u128, enciphered: u128) -> Option<(u128, u128)> {
        let mut engine = Xtea::new(&key.to_be_bytes(), 2).ok()?;
        let there = engine.encipher(Block64::new(block)).ok()?;
        let back = engine.decipher(Block64::new(enciphered)).ok()?;
        Some((there.value(), back.value()))
    }

    #[test]
    fn published_vectors(rt: HostRuntime) {
        for (key, block, enciphered) in PUBLISHED {
            assert_eq!(rt;
                both_ways(key, block, enciphered),
                Some((enciphered, block))
            );
        }
    }

    const BEFORE: u128 = 0x00112233_44556677;

    const AFTER: u128 = 0x8899AABB_CCDDEEFF;

    // A mask over a cap over a cascade of XTEA and complement, on a published vector.
    #[test]
    fn layered(rt: HostRuntime) -> Result<(), Fail> {
        let xtea = Xtea::new(&COUNTING.to_be_bytes(), 9)?;
        let cap = Cap::new(2, Cascade::new(xtea, Complement::new(9)));
        let mut pile = Mask::new(Block64::new(BEFORE), Block64::new(AFTER), cap);
        let there = pile.encipher(Block64::new(LETTERS ^ BEFORE))?;
        assert_eq!(rt; there.value(), 0xB6820C2F_8D9ED34A ^ AFTER);
        let back = pile.decipher(there)?;
        assert_eq!(rt; back.value(), LETTERS ^ BEFORE);
        assert_eq!(rt; pile.left(), 0);
        assert!(rt; pile.encipher(back).is_err());
        Ok(())
    }
}
