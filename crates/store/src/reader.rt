// Bytes that are read from the front on.
ghost use Rattle.std.specs.Prelude.{◌≡◌, ◌-◌, ◌≤◌, length, drop, Err};
ghost use Rattle.codec.specs.Words.{word_from};
ghost use Rattle.store.specs.declared.unread.Unread.TheVariants.{At};

use crate::unread::Unread;
use codec::words::word_from;

// Where a reading of bytes stands.
#[derive(Clone, Copy)]
pub(crate) struct Reader<'a> {
    pub(crate) bytes: &'a [u8],
    pub(crate) at: usize,
    ghost inside: { at ≤ length bytes.now },
}

impl Reader<'_> {
    // How many bytes are left.
    pub(crate) fn left(self) -> usize
        ensures { result ≡ length self.entry.bytes.now - self.entry.at }
    {
        self.bytes.len() - self.at
    }

    // The number that eight of the bytes left write, from the so-manieth on.
    pub(crate) fn word(self, ahead: usize) -> Option<u64>
        ensures { result ≡ word_from ahead (drop self.entry.at self.entry.bytes.now) }
    {
        word_from(&self.bytes[self.at..], ahead)
    }

    // That the bytes end before what should be there.
    pub(crate) fn cut_short(self) -> Unread
        ensures { result ≡ At (length self.entry.bytes.now) }
    {
        Unread::At(self.bytes.len() as u64)
    }
}
