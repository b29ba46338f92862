// Why bytes are not read in as a store.
#[derive(Clone, Copy, PartialEq, Eq, Debug)]
pub enum Unread {
    // What stands at this byte is not what was written out of any store; where the bytes are cut short, it is their end.
    At(u64),
    // The memory that was lent is too small.
    TooSmall,
}
