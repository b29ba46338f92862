// Orders: what a writer may ask of the table.
ghost use Rattle.std.specs.Prelude.{◌≡◌};
ghost use Rattle.rows.specs.Checks.{and_then};
ghost use Rattle.rows.specs.Numbers.{order_from, order_of};

use crate::kind::Kind;
use crate::numbers::{erase_from, insert_from, pack_from, raise_from};
use crate::refusal::Refusal;
use crate::span::Span;

#[derive(Clone, Copy)]
pub enum Order<'a> {
    // Rows come in. They stay where they were lent: key and amount of each, one behind the other.
    Insert(&'a [u64]),
    // Rows with keys in the span go.
    Erase(Span),
    // So much is added to the amounts of rows with keys in the span.
    Raise(Span, u32),
    // Files of at most so many rows become one; no row changes.
    Pack(u64),
}

// The order that some numbers are: kind and then `0 count key amount ..`, `1 from to`, `2 from to n` or `3 m`.
impl<'a> TryFrom<&'a [u64]> for Order<'a> {
    type Error = Refusal;

    ghost try_from_gives = { λ numbers order. and_then order order_of ≡ order_from numbers.now };

    fn try_from(numbers: &'a [u64]) -> Result<Order<'a>, Refusal> {
        let Some(&number) = numbers.first() else {
            return Err(Refusal::NoSuchOrder(0));
        };
        let Ok(kind) = Kind::try_from(number) else {
            return Err(Refusal::NoSuchOrder(0));
        };
        match kind {
            Kind::Insert => insert_from(numbers),
            Kind::Erase => erase_from(numbers),
            Kind::Raise => raise_from(numbers),
            Kind::Pack => pack_from(numbers),
        }
    }
}
