// Spans: which keys they have, and which of them overlap.
use crate::given::span;
use rows::span::Span;

#[test]
fn a_span_has_both_its_ends(rt: HostRuntime) {
    assert!(rt; span(4, 9).contains(4));
    assert!(rt; span(4, 9).contains(9));
    assert!(rt; !span(4, 9).contains(3));
    assert!(rt; !span(4, 9).contains(10));
    assert!(rt; span(7, 7).contains(7));
    assert!(rt; span(0, u32::MAX).contains(u32::MAX));
}

#[test]
fn an_empty_span_has_no_key(rt: HostRuntime) {
    assert!(rt; span(9, 4).is_empty());
    assert!(rt; !span(4, 4).is_empty());
    assert!(rt; !span(9, 4).contains(4));
    assert!(rt; !span(9, 4).contains(7));
    assert!(rt; !span(9, 4).contains(9));
}

#[test]
fn spans_overlap_where_they_share_a_key(rt: HostRuntime) {
    assert!(rt; span(4, 9).overlaps(span(8, 8)));
    assert!(rt; span(4, 9).overlaps(span(9, 12)));
    assert!(rt; span(4, 9).overlaps(span(0, 4)));
    assert!(rt; span(8, 8).overlaps(span(4, 9)));
    assert!(rt; !span(4, 9).overlaps(span(10, 12)));
    assert!(rt; !span(4, 9).overlaps(span(0, 3)));
}

#[test]
fn an_empty_span_overlaps_nothing(rt: HostRuntime) {
    assert!(rt; !span(9, 4).overlaps(span(0, 20)));
    assert!(rt; !span(0, 20).overlaps(span(9, 4)));
    assert!(rt; !span(9, 4).overlaps(span(9, 4)));
    assert!(rt; !span(1, 0).overlaps(span(0, 1)));
}
