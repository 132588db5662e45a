// One column of the next state, as a word, from its bytes in rows 0 to 3.
ghost use Rattle.std.specs.Prelude.{◌≡◌};
ghost use Rattle.aes.specs.State.{column, each, word_at};
ghost use Rattle.aes.specs.Ways.{mixing};
ghost use Rattle.aes.specs.Words.{unpacked};

use crate::way::Way;

// Row 0 of w, row 1 of x, row 2 of y and row 3 of z.
pub(crate) fn gathered(w: u32, x: u32, y: u32, z: u32) -> [u8; 4]
    ensures { word_at result 0 ≡ column (unpacked w).s0 (unpacked x).s1 (unpacked y).s2 (unpacked z).s3 }
{
    [
        w.to_be_bytes()[0],
        x.to_be_bytes()[1],
        y.to_be_bytes()[2],
        z.to_be_bytes()[3],
    ]
}

// The S-box and the matrix of a way. Rows 2 and 3 bring what rows 0 and 1 do, with the halves exchanged.
pub(crate) fn mixed<W: Way>(rows: [u8; 4]) -> u32
    ensures { unpacked result ≡ mixing W.steps (each W.steps.sub (word_at rows 0)) }
{
    let [a, b, c, d] = rows;
    let upper = W::brought(a)[0] ^ W::brought(b)[1];
    let lower = W::brought(c)[0] ^ W::brought(d)[1];
    upper ^ lower.rotate_left(16)
}

// The S-box alone.
pub(crate) fn substituted<W: Way>(rows: [u8; 4]) -> u32
    ensures { unpacked result ≡ each W.steps.sub (word_at rows 0) }
{
    let [a, b, c, d] = rows;
    u32::from_be_bytes([
        W::substitute(a),
        W::substitute(b),
        W::substitute(c),
        W::substitute(d),
    ])
}
