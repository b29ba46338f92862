// What orders do to rows, with rows of equal keys and spans that are empty.
use rows::order::Order;
use rows::refusal::Refusal;
use rows::row::Row;
use std::alloc::Global;
use std::process::Abort;
use std::test::Fail;

const LAST_AMOUNT: u64 = 1099511627775;

fn row(key: u32, amount: u64) -> Row {
    Row { key, amount }
}

// Two rows of one key, one of them twice, among others.
const ROWS: [Row; 5] = [
    Row { key: 4, amount: 7 },
    Row { key: 1, amount: 5 },
    Row { key: 4, amount: 7 },
    Row { key: 4, amount: 2 },
    Row { key: 9, amount: 1 },
];

// Whether the order of these numbers makes just these rows of ROWS, and touches so many.
fn makes(
    rt: &impl Abort,
    heap: Global,
    numbers: &[u64],
    rows: &[Row],
    touched: u64,
) -> Result<(), Fail> {
    let applied = Order::try_from(numbers)?.apply(heap, &ROWS)?;
    assert!(rt; applied.rows.as_slice() == rows);
    assert_eq!(rt; applied.touched, touched);
    Ok(())
}

#[test]
fn inserted_rows_come_behind(rt: HostRuntime) -> Result<(), Fail> {
    let [a, b, c, d, e] = ROWS;
    makes(
        &rt,
        rt.alloc(),
        &[0, 2, 4, 7, 2, 3],
        &[a, b, c, d, e, row(4, 7), row(2, 3)],
        2,
    )?;
    makes(&rt, rt.alloc(), &[0, 0], &ROWS, 0)
}

// The refusal of an insert of lent rows that were not read as an order.
fn lent_refusal(heap: Global, lent: &[u64]) -> Option<(u8, u64)> {
    match Order::Insert(lent).apply(heap, &ROWS) {
        Err(refusal) => Some((refusal.number(), refusal.place())),
        Ok(_) => None,
    }
}

#[test]
fn lent_rows_out_of_their_bounds_are_refused(rt: HostRuntime) {
    assert_eq!(rt;
        lent_refusal(rt.alloc(), &[4, 7, 4294967296, 3]),
        Some((3, 4))
    );
    assert_eq!(rt; lent_refusal(rt.alloc(), &[4, 1099511627776]), Some((3, 3)));
    assert_eq!(rt; lent_refusal(rt.alloc(), &[4, 7, 8]), Some((3, 5)));
}

#[test]
fn an_erase_removes_every_row_in_the_span(rt: HostRuntime) -> Result<(), Fail> {
    let [_, b, _, _, e] = ROWS;
    makes(&rt, rt.alloc(), &[1, 4, 4], &[b, e], 3)?;
    makes(&rt, rt.alloc(), &[1, 0, 9], &[], 5)?;
    makes(&rt, rt.alloc(), &[1, 5, 8], &ROWS, 0)?;
    makes(&rt, rt.alloc(), &[1, 9, 4], &ROWS, 0)
}

#[test]
fn a_raise_adds_to_every_row_in_the_span(rt: HostRuntime) -> Result<(), Fail> {
    let [_, b, _, _, e] = ROWS;
    makes(
        &rt,
        rt.alloc(),
        &[2, 2, 4, 10],
        &[row(4, 17), b, row(4, 17), row(4, 12), e],
        3,
    )?;
    makes(&rt, rt.alloc(), &[2, 9, 4, 10], &ROWS, 0)?;
    makes(&rt, rt.alloc(), &[2, 4, 4, 0], &ROWS, 3)
}

#[test]
fn a_pack_changes_nothing(rt: HostRuntime) -> Result<(), Fail> {
    makes(&rt, rt.alloc(), &[3, 0], &ROWS, 0)?;
    makes(&rt, rt.alloc(), &[3, u64::MAX], &ROWS, 0)
}

// The refusal of the order of these numbers, by number and place.
fn refusal(heap: Global, numbers: &[u64], rows: &[Row]) -> Option<(u8, u64)> {
    let Ok(order) = Order::try_from(numbers) else {
        return None;
    };
    match order.apply(heap, rows) {
        Err(refusal) => Some((refusal.number(), refusal.place())),
        Ok(_) => None,
    }
}

#[test]
fn an_amount_stays_below_its_limit(rt: HostRuntime) {
    let rows = [row(4, 1), row(5, LAST_AMOUNT)];
    assert_eq!(rt; refusal(rt.alloc(), &[2, 0, 9, 1], &rows), Some((7, 0)));
    assert_eq!(rt; refusal(rt.alloc(), &[2, 0, 9, 0], &rows), None);
    assert_eq!(rt; refusal(rt.alloc(), &[2, 4, 4, 1], &rows), None);
    assert_eq!(rt;
        refusal(
            rt.alloc(),
            &[2, 0, 9, 4294967295],
            &[row(4, LAST_AMOUNT - 4294967295)],
        ),
        None
    );
    assert_eq!(rt;
        refusal(
            rt.alloc(),
            &[2, 0, 9, 4294967295],
            &[row(4, LAST_AMOUNT - 4294967294)],
        ),
        Some((7, 0))
    );
}

#[test]
fn each_refusal_has_its_number_and_place(rt: HostRuntime) {
    assert_eq!(rt;
        (
            Refusal::HorizonTooLarge(5000).number(),
            Refusal::HorizonTooLarge(5000).place(),
        ),
        (1, 5000)
    );
    assert_eq!(rt;
        (
            Refusal::NoSuchWriter(16).number(),
            Refusal::NoSuchWriter(16).place(),
        ),
        (2, 16)
    );
    assert_eq!(rt;
        (
            Refusal::NoSuchOrder(3).number(),
            Refusal::NoSuchOrder(3).place(),
        ),
        (3, 3)
    );
    assert_eq!(rt;
        (
            Refusal::IdleWriter(7).number(),
            Refusal::IdleWriter(7).place(),
        ),
        (4, 7)
    );
    assert_eq!(rt;
        (
            Refusal::NoSuchVersion(9).number(),
            Refusal::NoSuchVersion(9).place(),
        ),
        (5, 9)
    );
    assert_eq!(rt;
        (Refusal::NoRoom(2).number(), Refusal::NoRoom(2).place()),
        (6, 2)
    );
    assert_eq!(rt;
        (
            Refusal::TooLarge(12).number(),
            Refusal::TooLarge(12).place(),
        ),
        (7, 12)
    );
    assert_eq!(rt;
        (Refusal::LogFull.number(), Refusal::LogFull.place()),
        (8, 65536)
    );
    assert_eq!(rt;
        (
            Refusal::DamagedFile(12).number(),
            Refusal::DamagedFile(12).place(),
        ),
        (9, 12)
    );
    assert_eq!(rt;
        (
            Refusal::DamagedEntry(12).number(),
            Refusal::DamagedEntry(12).place(),
        ),
        (9, 4294967308)
    );
    assert_eq!(rt;
        (Refusal::OutOfMemory.number(), Refusal::OutOfMemory.place()),
        (13, 0)
    );
}
