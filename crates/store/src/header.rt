// The header of a store that is written out: six numbers and their sum.
ghost use Rattle.std.specs.Prelude.{◌≡◌, ◌%◌, ◌^◌, length, if◌then◌else◌, Some, None, nat_le, sum};
ghost use Rattle.store.specs.Export.{header_words};
ghost use Rattle.store.specs.Import.{out_at, bounded, header_at, header_in};

use crate::limits::{MOST_ROWS, NUMBER_LIMIT};
use crate::unread::Unread;
use codec::words::word_from;
use rows::horizon::MOST_HORIZON;
use rows::refusal::LOG_LIMIT;

// What the header says of a store: its four numbers, how many slots it has, and how many files and entries follow.
#[derive(Clone, Copy)]
pub struct Header {
    pub horizon: u64,
    pub next: u64,
    pub most_rows: u64,
    pub slots: u64,
    pub files: u64,
    pub entries: u64,
}

impl Header {
    pub(crate) fn sum(&self) -> u64
        ensures { result ≡ sum (header_words self.now) % 2 ^ 64 }
    {
        self.horizon
            .wrapping_add(self.next)
            .wrapping_add(self.most_rows)
            .wrapping_add(self.slots)
            .wrapping_add(self.files)
            .wrapping_add(self.entries)
    }

    // The byte at which the first number stands that is out of its bounds.
    fn out_at(&self) -> Option<u64>
        ensures { result ≡ out_at self.now }
    {
        if self.horizon > MOST_HORIZON {
            return Some(0);
        }
        if self.next > NUMBER_LIMIT {
            return Some(8);
        }
        if self.most_rows == 0 || self.most_rows > MOST_ROWS {
            return Some(16);
        }
        if self.files > self.slots {
            return Some(32);
        }
        if self.entries > LOG_LIMIT {
            return Some(40);
        }
        None
    }

    fn in_bounds(self) -> Result<Header, Unread>
        ensures { result ≡ bounded self }
    {
        match self.out_at() {
            Some(at) => Err(Unread::At(at)),
            None => Ok(self),
        }
    }

    // The numbers at the front of bytes; none where they are cut short.
    fn at_front(bytes: &[u8]) -> Option<Header>
        ensures { result ≡ (if nat_le 48 (length bytes.now) then Some (header_at bytes.now) else None) }
    {
        Some(Header {
            horizon: word_from(bytes, 0)?,
            next: word_from(bytes, 8)?,
            most_rows: word_from(bytes, 16)?,
            slots: word_from(bytes, 24)?,
            files: word_from(bytes, 32)?,
            entries: word_from(bytes, 40)?,
        })
    }

    // The header that bytes begin with.
    pub fn read(bytes: &[u8]) -> Result<Header, Unread>
        ensures { result ≡ header_in bytes.now }
    {
        let (Some(header), Some(sum)) = (Header::at_front(bytes), word_from(bytes, 48)) else {
            return Err(Unread::At(bytes.len() as u64));
        };
        if sum != header.sum() {
            return Err(Unread::At(48));
        }
        header.in_bounds()
    }
}
