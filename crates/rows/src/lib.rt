// Rows, spans and orders, what an order does to rows, and why a deed is refused.
#![tactic(auto)]

ghost use Rattle.rows.specs.Laws.{RowOrderMeansNothing, OverlappingIsSharingAKey, KindsComeBack};

pub mod apply;
pub mod horizon;
pub mod kind;
mod numbers;
pub mod order;
pub mod refusal;
pub mod row;
pub mod span;

// The order in which rows stand means nothing to what an order does and touches.
pub fn row_order_means_nothing()
    ensures { RowOrderMeansNothing }
{}

// Two spans overlap exactly if some key lies in both.
pub fn overlapping_is_sharing_a_key()
    ensures { OverlappingIsSharingAKey }
{}

// A kind comes back from the number that stands for it.
pub fn kinds_come_back()
    ensures { KindsComeBack }
{}
