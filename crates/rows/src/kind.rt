// The kinds of orders, and the numbers that stand for them: here alone, since they are what is read and written.
ghost use Rattle.std.specs.Prelude.{◌≡◌};
ghost use Rattle.rows.specs.Kinds.{IsKindFrom, number_of_kind};

#[derive(Clone, Copy, PartialEq, Eq, Debug)]
pub enum Kind {
    Insert,
    Erase,
    Raise,
    Pack,
}

// A number that stands for no kind.
#[derive(Clone, Copy, PartialEq, Eq, Debug)]
pub struct UnknownKind;

impl TryFrom<u64> for Kind {
    type Error = UnknownKind;

    ghost try_from_gives = { IsKindFrom };

    fn try_from(number: u64) -> Result<Kind, UnknownKind> {
        match number {
            0 => Ok(Kind::Insert),
            1 => Ok(Kind::Erase),
            2 => Ok(Kind::Raise),
            3 => Ok(Kind::Pack),
            _ => Err(UnknownKind),
        }
    }
}

impl From<Kind> for u64 {
    ghost from_gives = { λ kind number. number ≡ number_of_kind kind };

    fn from(kind: Kind) -> u64 {
        match kind {
            Kind::Insert => 0,
            Kind::Erase => 1,
            Kind::Raise => 2,
            Kind::Pack => 3,
        }
    }
}
