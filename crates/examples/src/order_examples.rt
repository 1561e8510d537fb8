// Small orders: made, asked and refused.
use orders::{MOST_PARENTS, MOST_ROWS, Order, Parents, ParentsFault, Rows, RowsFault};
use std::test::Fail;

// The parents of members 1 and 2; member 0's entry is never looked at.
fn three_parents(first: u8, second: u8) -> [u8; MOST_PARENTS] {
    let mut parents = [0; MOST_PARENTS];
    parents[0] = 255;
    parents[1] = first;
    parents[2] = second;
    parents
}

// The rows of four members.
fn four_rows(first: u16, second: u16, third: u16, fourth: u16) -> [u16; MOST_ROWS] {
    let mut rows = [0; MOST_ROWS];
    rows[0] = first;
    rows[1] = second;
    rows[2] = third;
    rows[3] = fourth;
    rows
}

// The member whose row is at fault.
fn faulty_row(rows: [u16; MOST_ROWS]) -> Option<u8> {
    match Rows::new(rows, 4) {
        Err(RowsFault::Row(member)) => Some(member),
        _ => None,
    }
}

#[test]
fn a_chain_of_parents(rt: HostRuntime) -> Result<(), Fail> {
    match Parents::new(three_parents(0, 1), 3) {
        Ok(chain) => {
            assert!(rt; chain.at_or_above(0, 2) && chain.at_or_above(1, 2));
            assert!(rt; !chain.at_or_above(2, 1) && !chain.at_or_above(0, 3));
            Ok(())
        }
        Err(_) => Err(Fail::new("a chain is an order")),
    }
}

#[test]
fn parents_refused(rt: HostRuntime) {
    assert!(rt;
        matches!(
            Parents::new(three_parents(0, 2), 3),
            Err(ParentsFault::NotLower(2))
        )
    );
    assert!(rt;
        matches!(
            Parents::new(three_parents(0, 1), 65),
            Err(ParentsFault::TooMany)
        )
    );
}

#[test]
fn rows_of_four(rt: HostRuntime) -> Result<(), Fail> {
    match Rows::new(four_rows(1, 6, 4, 8), 4) {
        Ok(order) => {
            assert!(rt; order.at_or_above(1, 2) && !order.at_or_above(2, 1));
            assert!(rt; !order.at_or_above(0, 3) && !order.at_or_above(4, 4));
            Ok(())
        }
        Err(_) => Err(Fail::new("the rows are an order")),
    }
}

#[test]
fn rows_refused(rt: HostRuntime) {
    assert_eq!(rt;
        faulty_row(four_rows(1, 6, 6, 8)),
        Some(1),
        "two name each other"
    );
    assert_eq!(rt;
        faulty_row(four_rows(1, 6, 4, 24)),
        Some(3),
        "a missing member"
    );
    assert_eq!(rt;
        faulty_row(four_rows(1, 6, 516, 8)),
        Some(1),
        "a row not within"
    );
}
