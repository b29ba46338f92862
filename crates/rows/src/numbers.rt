// Orders and their rows, read from numbers. A fault is told by the index of the first number at fault.
ghost use Rattle.std.specs.Prelude.{◌≡◌, ◌+◌, ◌*◌, ◌^◌, ◌<◌, Ok};
ghost use Rattle.rows.specs.Checks.{and_then};
ghost use Rattle.rows.specs.Numbers.{key_limit, below_at, row_from, lent_rows, insert_count, insert_from, span_from, erase_from, raise_from, pack_from, order_of};

use crate::order::Order;
use crate::refusal::Refusal;
use crate::row::{AMOUNT_LIMIT, Row};
use crate::span::Span;

// The most rows of one insert.
const MOST_INSERTED: u64 = 1024;

fn key_at(numbers: &[u64], i: usize) -> Option<u32>
    ensures { result ≡ below_at key_limit numbers.now i }
{
    let number = *numbers.get(i)?;
    u32::try_from(number).ok()
}

fn below_at(numbers: &[u64], i: usize, limit: u64) -> Option<u64>
    ensures { result ≡ below_at limit numbers.now i }
{
    numbers.get(i).copied().filter(|&number| number < limit)
}

// The row that a pair of lent numbers is, behind so many other pairs, the first of which stands at 2 in the order.
pub(crate) fn row_from(pair: &[u64], i: usize) -> Result<Row, Refusal>
    requires { i < 2 ^ 62 }
    ensures { result ≡ row_from (2 + 2 * i) pair.now }
{
    let place = 2 + 2 * i as u64;
    let Some(key) = key_at(pair, 0) else {
        return Err(Refusal::NoSuchOrder(place));
    };
    let Some(amount) = below_at(pair, 1, AMOUNT_LIMIT) else {
        return Err(Refusal::NoSuchOrder(1 + place));
    };
    Ok(Row { key, amount })
}

// Whether all lent rows are rows.
fn check_rows(lent: &[u64]) -> Result<(), Refusal>
    ensures { result ≡ and_then (lent_rows lent.now) (λ _. Ok tt) }
{
    for (i, pair) in lent.chunks(2).enumerate() {
        row_from(pair, i)?;
    }
    Ok(())
}

// How many rows an insert says that it has, if it may have so many and has them.
fn insert_count(numbers: &[u64]) -> Option<u64>
    ensures { result ≡ insert_count numbers.now }
{
    let count = below_at(numbers, 1, 1 + MOST_INSERTED)?;
    (numbers.len() as u64 == 2 + 2 * count).then_some(count)
}

pub(crate) fn insert_from(numbers: &[u64]) -> Result<Order<'_>, Refusal>
    ensures { and_then result order_of ≡ insert_from numbers.now }
{
    let Some(_) = insert_count(numbers) else {
        return Err(Refusal::NoSuchOrder(1));
    };
    let lent = &numbers[2..];
    check_rows(lent)?;
    Ok(Order::Insert(lent))
}

fn span_from(numbers: &[u64]) -> Result<Span, Refusal>
    ensures { result ≡ span_from numbers.now }
{
    let Some(from) = key_at(numbers, 1) else {
        return Err(Refusal::NoSuchOrder(1));
    };
    let Some(to) = key_at(numbers, 2) else {
        return Err(Refusal::NoSuchOrder(2));
    };
    Ok(Span { from, to })
}

pub(crate) fn erase_from(numbers: &[u64]) -> Result<Order<'_>, Refusal>
    ensures { and_then result order_of ≡ erase_from numbers.now }
{
    let span = span_from(numbers)?;
    if numbers.len() > 3 {
        return Err(Refusal::NoSuchOrder(3));
    }
    Ok(Order::Erase(span))
}

pub(crate) fn raise_from(numbers: &[u64]) -> Result<Order<'_>, Refusal>
    ensures { and_then result order_of ≡ raise_from numbers.now }
{
    let span = span_from(numbers)?;
    let Some(by) = key_at(numbers, 3) else {
        return Err(Refusal::NoSuchOrder(3));
    };
    if numbers.len() > 4 {
        return Err(Refusal::NoSuchOrder(4));
    }
    Ok(Order::Raise(span, by))
}

pub(crate) fn pack_from(numbers: &[u64]) -> Result<Order<'_>, Refusal>
    ensures { and_then result order_of ≡ pack_from numbers.now }
{
    let Some(&most) = numbers.get(1) else {
        return Err(Refusal::NoSuchOrder(1));
    };
    if numbers.len() > 2 {
        return Err(Refusal::NoSuchOrder(2));
    }
    Ok(Order::Pack(most))
}
