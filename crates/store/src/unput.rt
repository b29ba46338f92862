// Why a file or an entry was not put.
ghost use Rattle.std.specs.Prelude.{◌≡◌};
ghost use Rattle.store.specs.Unputs.{unput_refusal};

use rows::refusal::Refusal;

#[derive(Clone, Copy, PartialEq, Eq, Debug)]
pub enum Unput {
    // There is no room, or the log is full.
    Refused(Refusal),
    // The entry bears another place than the next.
    OtherPlace,
    // A slot bears the number of the next file already.
    NumberTaken,
    // The file or the entry is out of its bounds.
    OutOfBounds,
}

// What a deed is told of it; the last three come only of damaged memory or of callers that did not look before.
impl From<Unput> for Refusal {
    ghost from_gives = { λ unput refusal. refusal ≡ unput_refusal unput };

    fn from(unput: Unput) -> Refusal {
        match unput {
            Unput::Refused(refusal) => refusal,
            Unput::OtherPlace | Unput::NumberTaken | Unput::OutOfBounds => Refusal::NoRoom(0),
        }
    }
}
