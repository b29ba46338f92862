// The bounds of a store's numbers, besides `LOG_LIMIT`, the most entries.
use codec::file;

// File numbers stay below 2^32.
pub(crate) const NUMBER_LIMIT: u64 = 1 << 32;

// The most rows that a file may have in any store.
pub(crate) const MOST_ROWS: u64 = file::MOST_ROWS as u64;
