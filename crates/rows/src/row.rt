// One row.
ghost use Rattle.std.specs.Prelude.{◌≡◌};
ghost use Rattle.rows.specs.Rows.{raise_row, raised_row};

use crate::span::Span;

// Amounts stay below 2^40.
pub const AMOUNT_LIMIT: u64 = 1099511627776;

// A key and an amount; rows that stand in the table have an amount below 2^40.
#[derive(Clone, Copy, PartialEq, Eq, Debug)]
pub struct Row {
    pub key: u32,
    pub amount: u64,
}

impl Row {
    // The row with so much more; none where the amount would come to 2^40 or more.
    pub fn raise(self, by: u32) -> Option<Row>
        ensures { result ≡ raise_row by self }
    {
        let amount = self.amount.checked_add(u64::from(by))?;
        (amount < AMOUNT_LIMIT).then_some(Row { amount, ..self })
    }

    // The row as a raise of a span leaves it.
    pub fn raise_within(self, span: Span, by: u32) -> Option<Row>
        ensures { result ≡ raised_row span by self }
    {
        if span.contains(self.key) {
            self.raise(by)
        } else {
            Some(self)
        }
    }
}
