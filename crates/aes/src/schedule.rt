// The key expansion, for a key of nk words.
ghost use Rattle.std.specs.Prelude.{◌≡◌, ◌+◌, ◌-◌, ◌*◌, ◌/◌, ◌<◌, ◌≤◌, map, length, take};
ghost use Rattle.aes.specs.State.{word_at};
ghost use Rattle.aes.specs.Schedule.{sub_word, rot_word, rcon, taken, expansion, key_words};
ghost use Rattle.aes.specs.Words.{packed, unpacked};

use crate::columns::substituted;
use crate::way::Forth;

// The round constants 1 to 10, in row 0.
const CONSTANTS: [u32; 10] = [
    0x01000000, 0x02000000, 0x04000000, 0x08000000, 0x10000000, 0x20000000, 0x40000000, 0x80000000,
    0x1b000000, 0x36000000,
];

fn constant(i: usize) -> u32
    requires above { 0 < i }
    requires below { i < 11 }
    ensures { result ≡ packed (rcon i) }
{
    CONSTANTS[i - 1]
}

fn rot_word(t: u32) -> u32
    ensures { unpacked result ≡ rot_word (unpacked t) }
{
    t.rotate_left(8)
}

fn sub_word(t: u32) -> u32
    ensures { unpacked result ≡ sub_word (unpacked t) }
{
    substituted::<Forth>(t.to_be_bytes())
}

// What word i takes in besides word i − nk, where t is word i − 1.
fn taken_in(nk: usize, i: usize, t: u32) -> u32
    requires some { 0 < nk }
    requires above { 0 < i / nk }
    requires below { i / nk < 11 }
    ensures { unpacked result ≡ taken nk i (unpacked t) }
{
    if i % nk == 0 {
        sub_word(rot_word(t)) ^ constant(i / nk)
    } else if nk > 6 && i % nk == 4 {
        sub_word(t)
    } else {
        t
    }
}

// The first nk words of w are the key; the others are filled in, by index, since each is made of two earlier ones.
fn expand(nk: usize, w: &mut [u32])
    requires some { 0 < nk }
    requires key_in { nk ≤ length w.old }
    requires below { length w.old ≤ 11 * nk }
    ensures { map unpacked w.new ≡ expansion nk (length w.old - nk) (map unpacked (take nk w.old)) }
{
    for i in nk..w.len() {
        let t = taken_in(nk, i, w[i - 1]);
        w[i] = w[i - nk] ^ t;
    }
}

// Writes the words of the key to the front of w.
fn load(key: &[u8], w: &mut [u32])
    requires { length key.now / 4 ≤ length w.old }
    ensures { map unpacked (take (length key.now / 4) w.new) ≡ key_words (length key.now / 4) key.now }
{
    for (i, bytes) in key.as_chunks::<4>().0.iter().enumerate() {
        w[i] = u32::from_be_bytes(*bytes);
    }
}

// The 44 words of a key of sixteen bytes.
pub(crate) fn words128(key: &[u8]) -> [u32; 44]
    requires { length key.now ≡ 16 }
    ensures { map unpacked result ≡ expansion 4 40 (key_words 4 key.now) }
{
    let mut w = [0; 44];
    load(key, &mut w);
    expand(4, &mut w);
    w
}
