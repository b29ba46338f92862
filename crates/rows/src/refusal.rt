// Why a deed is refused. A refusal has a number, and a place that says more.
ghost use Rattle.std.specs.Prelude.{◌≡◌, Some};
ghost use Rattle.rows.specs.Refusals.{number_of, place_of, text_of};
ghost use Rattle.rows.specs.declared.refusal.Refusal.TheVariants.{OutOfMemory};

use std::alloc::{AllocError, AllocFailed};
use std::fmt;

// Entries count from 2^32 on, so that their places are told apart from the numbers of files.
const ENTRY_PLACES: u64 = 4294967296;

// The most entries that a log takes.
pub const LOG_LIMIT: u64 = 65536;

#[derive(Clone, Copy, PartialEq, Eq, Debug)]
pub enum Refusal {
    // The horizon at the opening is above the largest.
    HorizonTooLarge(u64),
    NoSuchWriter(u64),
    // Where the first number at fault stands among those of the order.
    NoSuchOrder(u64),
    IdleWriter(u64),
    // A version that does not exist or is not kept.
    NoSuchVersion(u64),
    // How much room there is.
    NoRoom(u64),
    // The number that the file would bear.
    TooLarge(u64),
    LogFull,
    // The number of a file that is missing or does not decode.
    DamagedFile(u64),
    // The place of an entry that does not decode.
    DamagedEntry(u32),
    OutOfMemory,
}

impl Refusal {
    pub fn number(self) -> u8
        ensures { result ≡ number_of self }
    {
        match self {
            Refusal::HorizonTooLarge(_) => 1,
            Refusal::NoSuchWriter(_) => 2,
            Refusal::NoSuchOrder(_) => 3,
            Refusal::IdleWriter(_) => 4,
            Refusal::NoSuchVersion(_) => 5,
            Refusal::NoRoom(_) => 6,
            Refusal::TooLarge(_) => 7,
            Refusal::LogFull => 8,
            Refusal::DamagedFile(_) | Refusal::DamagedEntry(_) => 9,
            Refusal::OutOfMemory => 13,
        }
    }

    pub fn place(self) -> u64
        ensures { result ≡ place_of self }
    {
        match self {
            Refusal::HorizonTooLarge(number)
            | Refusal::NoSuchWriter(number)
            | Refusal::NoSuchOrder(number)
            | Refusal::IdleWriter(number)
            | Refusal::NoSuchVersion(number)
            | Refusal::NoRoom(number)
            | Refusal::TooLarge(number)
            | Refusal::DamagedFile(number) => number,
            Refusal::DamagedEntry(place) => ENTRY_PLACES + u64::from(place),
            Refusal::LogFull => LOG_LIMIT,
            Refusal::OutOfMemory => 0,
        }
    }
}

impl fmt::Display for Refusal {
    ghost output = { λ refusal. Some (text_of refusal) };

    fn fmt<W: fmt::Write>(&self, f: &mut fmt::Formatter<W>) -> fmt::Result {
        let number = self.number();
        let place = self.place();
        write!(f, "refused {number} at {place}")
    }
}

impl From<AllocError> for Refusal {
    ghost from_gives = { λ _ r. r ≡ OutOfMemory };

    fn from(_error: AllocError) -> Refusal {
        Refusal::OutOfMemory
    }
}

impl<T: Drop> From<AllocFailed<T>> for Refusal {
    ghost from_gives = { λ _ r. r ≡ OutOfMemory };

    fn from(_refused: AllocFailed<T>) -> Refusal {
        Refusal::OutOfMemory
    }
}
