// The kinds of records, and the bytes that stand for them.
ghost use Rattle.std.specs.Prelude.{◌≡◌};
ghost use Rattle.book.specs.Kinds.{kind_number, Names};

// A kind, which stands in a slot as its number.
#[derive(Clone, Copy)]
pub(crate) enum Kind {
    Add = 1,
    Cut,
    Put,
    Tag,
}

// A byte that stands for no kind.
#[derive(Clone, Copy)]
pub(crate) struct UnknownKind;

impl TryFrom<u8> for Kind {
    type Error = UnknownKind;

    ghost try_from_gives = { Names };

    fn try_from(number: u8) -> Result<Self, UnknownKind> {
        match number {
            1 => Ok(Kind::Add),
            2 => Ok(Kind::Cut),
            3 => Ok(Kind::Put),
            4 => Ok(Kind::Tag),
            _ => Err(UnknownKind),
        }
    }
}

impl From<Kind> for u8 {
    ghost from_gives = { λ kind number. number ≡ kind_number kind };

    fn from(kind: Kind) -> u8 {
        kind as u8
    }
}
