// What several tests are given.
use rows::span::Span;

// Keys are below this.
pub(crate) const KEYS: u64 = 1 << 32;

// Amounts are below this.
pub(crate) const AMOUNTS: u64 = 1 << 40;

pub(crate) fn span(from: u32, to: u32) -> Span {
    Span { from, to }
}
