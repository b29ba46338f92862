// Orders read from numbers: what each is, and the index of the first number at fault.
use crate::given::{AMOUNTS, KEYS};
use rows::order::Order;
use rows::refusal::Refusal;
use rows::span::Span;
use std::alloc::{AllocError, Global};
use std::test::Fail;

// The index at which an order is refused.
fn fault(numbers: &[u64]) -> Option<u64> {
    match Order::try_from(numbers) {
        Err(Refusal::NoSuchOrder(index)) => Some(index),
        _ => None,
    }
}

#[test]
fn an_unknown_kind_is_at_fault_at_0(rt: HostRuntime) {
    assert_eq!(rt; fault(&[]), Some(0));
    assert_eq!(rt; fault(&[4]), Some(0));
    assert_eq!(rt; fault(&[4, 1, 2]), Some(0));
    assert_eq!(rt; fault(&[u64::MAX, 0]), Some(0));
}

#[test]
fn an_insert_that_disagrees_with_its_count_is_at_fault_at_1(rt: HostRuntime) {
    assert_eq!(rt; fault(&[0]), Some(1));
    assert_eq!(rt; fault(&[0, 1]), Some(1));
    assert_eq!(rt; fault(&[0, 1, 7]), Some(1));
    assert_eq!(rt; fault(&[0, 1, 7, 9, 1]), Some(1));
    assert_eq!(rt; fault(&[0, 0, 7, 9]), Some(1));
    assert_eq!(rt; fault(&[0, 2, KEYS, 9]), Some(1));
    assert_eq!(rt; fault(&[0, u64::MAX, 7, 9]), Some(1));
    assert_eq!(rt; fault(&[0, 1025]), Some(1));
}

#[test]
fn a_row_out_of_its_bounds_is_at_fault_at_its_own_index(rt: HostRuntime) {
    assert_eq!(rt; fault(&[0, 1, KEYS, 9]), Some(2));
    assert_eq!(rt; fault(&[0, 1, 7, AMOUNTS]), Some(3));
    assert_eq!(rt; fault(&[0, 1, KEYS, AMOUNTS]), Some(2));
    assert_eq!(rt; fault(&[0, 2, 7, 9, KEYS, 1]), Some(4));
    assert_eq!(rt; fault(&[0, 2, 7, 9, 8, u64::MAX]), Some(5));
    assert_eq!(rt; fault(&[0, 1, KEYS - 1, AMOUNTS - 1]), None);
    assert_eq!(rt; fault(&[0, 0]), None);
}

#[test]
fn an_erase_is_at_fault_at_the_first_index(rt: HostRuntime) {
    assert_eq!(rt; fault(&[1]), Some(1));
    assert_eq!(rt; fault(&[1, KEYS]), Some(1));
    assert_eq!(rt; fault(&[1, 4]), Some(2));
    assert_eq!(rt; fault(&[1, 4, KEYS]), Some(2));
    assert_eq!(rt; fault(&[1, 4, 9, 0]), Some(3));
    assert_eq!(rt; fault(&[1, KEYS, KEYS, 0]), Some(1));
    assert_eq!(rt; fault(&[1, KEYS - 1, KEYS - 1]), None);
}

#[test]
fn a_raise_is_at_fault_at_the_first_index(rt: HostRuntime) {
    assert_eq!(rt; fault(&[2]), Some(1));
    assert_eq!(rt; fault(&[2, 4]), Some(2));
    assert_eq!(rt; fault(&[2, 4, 9]), Some(3));
    assert_eq!(rt; fault(&[2, KEYS, 9, 1]), Some(1));
    assert_eq!(rt; fault(&[2, 4, KEYS, 1]), Some(2));
    assert_eq!(rt; fault(&[2, 4, 9, KEYS]), Some(3));
    assert_eq!(rt; fault(&[2, 4, 9, 1, 0]), Some(4));
    assert_eq!(rt; fault(&[2, 4, 9, KEYS - 1]), None);
}

#[test]
fn a_pack_is_at_fault_at_the_first_index(rt: HostRuntime) {
    assert_eq!(rt; fault(&[3]), Some(1));
    assert_eq!(rt; fault(&[3, 5, 5]), Some(2));
    assert_eq!(rt; fault(&[3, u64::MAX]), None);
}

// The numbers of an insert of so many rows.
fn insert_of(heap: Global, count: u64) -> Result<Vec<u64>, AllocError> {
    let mut numbers = Vec::new(heap);
    numbers.push(0)?;
    numbers.push(count)?;
    for i in 0..count {
        numbers.push(i & 0xff)?;
        numbers.push(1)?;
    }
    Ok(numbers)
}

#[test]
fn an_insert_has_at_most_1024_rows(rt: HostRuntime) -> Result<(), Fail> {
    let most = insert_of(rt.alloc(), 1024)?;
    assert_eq!(rt; fault(most.as_slice()), None);
    let above = insert_of(rt.alloc(), 1025)?;
    assert_eq!(rt; fault(above.as_slice()), Some(1));
    Ok(())
}

#[test]
fn numbers_are_the_orders_that_they_say(rt: HostRuntime) -> Result<(), Fail> {
    match Order::try_from([1, 4, 9].as_slice()) {
        Ok(Order::Erase(span)) => assert_eq!(rt; span, Span { from: 4, to: 9 }),
        _ => return Err(Fail::new("no erase")),
    }
    match Order::try_from([2, 9, 4, 7].as_slice()) {
        Ok(Order::Raise(span, by)) => {
            assert_eq!(rt; span, Span { from: 9, to: 4 });
            assert_eq!(rt; by, 7);
        }
        _ => return Err(Fail::new("no raise")),
    }
    match Order::try_from([3, 12].as_slice()) {
        Ok(Order::Pack(most)) => assert_eq!(rt; most, 12),
        _ => return Err(Fail::new("no pack")),
    }
    match Order::try_from([0, 2, 1, 5, 4, 7].as_slice()) {
        Ok(Order::Insert(lent)) => {
            assert!(rt; lent == [1, 5, 4, 7].as_slice());
            Ok(())
        },
        _ => Err(Fail::new("no insert")),
    }
}
