// The kinds of entry, and the byte that tells each in a key.
ghost use Rattle.std.specs.Prelude.{◌≡◌};
ghost use Rattle.day_file.specs.Kinds.{kind_byte, Decodes};

#[derive(Clone, Copy, PartialEq, Eq, Debug)]
pub(crate) enum Kind {
    Schedule = 1,
    Posting = 2,
    Withdrawal = 3,
    Reading = 4,
    ReadingWithdrawn = 5,
}

// A byte that tells no kind.
#[derive(Clone, Copy, PartialEq, Eq, Debug)]
pub(crate) struct UnknownKind;

impl TryFrom<u8> for Kind {
    type Error = UnknownKind;

    ghost try_from_gives = { Decodes };

    fn try_from(byte: u8) -> Result<Kind, UnknownKind> {
        match byte {
            1 => Ok(Kind::Schedule),
            2 => Ok(Kind::Posting),
            3 => Ok(Kind::Withdrawal),
            4 => Ok(Kind::Reading),
            5 => Ok(Kind::ReadingWithdrawn),
            _ => Err(UnknownKind),
        }
    }
}

impl From<Kind> for u8 {
    ghost from_gives = { λ kind byte. byte ≡ kind_byte kind };

    fn from(kind: Kind) -> u8 {
        kind as u8
    }
}
