// What an order does to rows: the plain way, which every other way of doing orders is held to.
ghost use Rattle.std.specs.Prelude.{◌≡◌, Ok};
ghost use Rattle.rows.specs.Rows.{many_within};
ghost use Rattle.rows.specs.Orders.{erase, raise, pack};
ghost use Rattle.rows.specs.Numbers.{insert_of, order_of, IsApplied};

use crate::numbers::row_from;
use crate::order::Order;
use crate::refusal::Refusal;
use crate::row::Row;
use crate::span::Span;
use std::alloc::Global;

// Rows as an order leaves them, and how many it touched.
#[derive(Drop)]
pub struct Applied {
    pub rows: Vec<Row>,
    pub touched: u64,
}

fn inserted(heap: Global, rows: &[Row], lent: &[u64]) -> Result<Applied, Refusal>
    ensures { IsApplied (insert_of lent.now) rows.now result }
{
    let mut all = Vec::from_slice(heap, rows)?;
    for (i, pair) in lent.chunks(2).enumerate() {
        let row = row_from(pair, i)?;
        all.push(row)?;
    }
    Ok(Applied {
        rows: all,
        touched: lent.len().div_ceil(2) as u64,
    })
}

// How many rows have a key in the span. A loop: `filter(..).count()` takes about twice the time.
fn count_within(rows: &[Row], span: Span) -> u64
    ensures { result ≡ many_within span rows.now }
{
    let mut count = 0;
    for row in rows {
        if span.contains(row.key) {
            count += 1;
        }
    }
    count
}

fn erased(heap: Global, rows: &[Row], span: Span) -> Result<Applied, Refusal>
    ensures { IsApplied (Ok (erase span)) rows.now result }
{
    let kept = rows.iter().copied().filter(|row| !span.contains(row.key));
    Ok(Applied {
        rows: kept.collect(heap)?,
        touched: count_within(rows, span),
    })
}

fn raised(heap: Global, rows: &[Row], span: Span, by: u32) -> Result<Applied, Refusal>
    ensures { IsApplied (Ok (raise span by)) rows.now result }
{
    let mut all = Vec::new(heap);
    for row in rows {
        let Some(changed) = row.raise_within(span, by) else {
            return Err(Refusal::TooLarge(0));
        };
        all.push(changed)?;
    }
    Ok(Applied {
        rows: all,
        touched: count_within(rows, span),
    })
}

fn unchanged(heap: Global, rows: &[Row], most: u64) -> Result<Applied, Refusal>
    ensures { IsApplied (Ok (pack most)) rows.now result }
{
    Ok(Applied {
        rows: Vec::from_slice(heap, rows)?,
        touched: 0,
    })
}

impl Order<'_> {
    // The rows after the order, and how many it touched; refused where an amount would come to 2^40 or more.
    pub fn apply(self, heap: Global, rows: &[Row]) -> Result<Applied, Refusal>
        ensures { IsApplied (order_of self.entry) rows.now result }
    {
        match self {
            Order::Insert(lent) => inserted(heap, rows, lent),
            Order::Erase(span) => erased(heap, rows, span),
            Order::Raise(span, by) => raised(heap, rows, span, by),
            Order::Pack(most) => unchanged(heap, rows, most),
        }
    }
}
