// The ciphers that a program can be told to use.
ghost use Rattle.std.specs.Prelude.{◌≡◌, Some};
ghost use Rattle.std.specs.Result.{result_ok};
ghost use Rattle.report.specs.Ciphers.{named, name_of};

use std::fmt;
use std::str::FromStr;

#[derive(Clone, Copy, PartialEq, Eq, PartialOrd, Ord, Debug)]
pub enum Cipher {
    Aes,
    Xtea,
}

// No cipher has the name.
#[derive(Clone, Copy, PartialEq, Eq, Debug)]
pub struct UnknownCipher;

impl FromStr for Cipher {
    type Err = UnknownCipher;

    ghost from_str_gives = { λ name result. result_ok result ≡ named name };

    fn from_str(name: &str) -> Result<Self, UnknownCipher> {
        match name {
            "aes" => Ok(Cipher::Aes),
            "xtea" => Ok(Cipher::Xtea),
            _ => Err(UnknownCipher),
        }
    }
}

impl fmt::Display for Cipher {
    ghost output = { λ cipher. Some (name_of cipher) };

    fn fmt<W: fmt::Write>(&self, f: &mut fmt::Formatter<W>) -> fmt::Result {
        match self {
            Cipher::Aes => write!(f, "aes"),
            Cipher::Xtea => write!(f, "xtea"),
        }
    }
}
