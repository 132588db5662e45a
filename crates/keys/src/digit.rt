// Hexadecimal digits.
ghost use Rattle.std.specs.Prelude.{◌≡◌};
ghost use Rattle.keys.specs.Digits.{digit_of};

// The value of a digit, in either case of its letters.
pub fn digit_of(c: char) -> Option<u8>
    ensures { result ≡ digit_of c }
{
    c.to_digit(16).map(|digit| digit as u8)
}
