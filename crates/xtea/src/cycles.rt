// XTEA on two words, over any number of cycles.
ghost use Rattle.std.specs.Prelude.{◌≡◌};
ghost use Rattle.xtea.specs.Cycles.{added, enciphered, deciphered, Undone};

// What each cycle adds to the sum s.
const DELTA: u32 = 0x9E37_79B9;

// What a cycle adds to a word, from the other word z and a word of the key.
fn mix(z: u32, s: u32, key_word: u32) -> u32
    ensures { result ≡ added z s key_word }
{
    ((z << 4) ^ (z >> 5)).wrapping_add(z) ^ s.wrapping_add(key_word)
}

pub(crate) fn encipher(key: &[u32; 4], cycles: u32, block: (u32, u32)) -> (u32, u32)
    ensures { result ≡ enciphered key.now cycles block }
{
    let (mut v, mut w) = block;
    let mut s: u32 = 0;
    for _ in 0..cycles {
        v = v.wrapping_add(mix(w, s, key[(s % 4) as usize]));
        s = s.wrapping_add(DELTA);
        w = w.wrapping_add(mix(v, s, key[((s >> 11) % 4) as usize]));
    }
    (v, w)
}

pub(crate) fn decipher(key: &[u32; 4], cycles: u32, block: (u32, u32)) -> (u32, u32)
    ensures { result ≡ deciphered key.now cycles block }
{
    let (mut v, mut w) = block;
    let mut s: u32 = DELTA.wrapping_mul(cycles);
    for _ in (0..cycles).rev() {
        w = w.wrapping_sub(mix(v, s, key[((s >> 11) % 4) as usize]));
        s = s.wrapping_sub(DELTA);
        v = v.wrapping_sub(mix(w, s, key[(s % 4) as usize]));
    }
    (v, w)
}

// Deciphering undoes enciphering, and the reverse, under every key and over every number of cycles.
pub fn cycles_undo()
    ensures { Undone }
{}
