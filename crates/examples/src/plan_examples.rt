// A plan read, and what a refusal leaves of it.
use orders::Order;
use plans::{Plan, read};
use std::test::Fail;

// Two branches, the second under the first, and one role.
const SMALL: [u8; 19] = [1, 0, 16, 2, 0, 0, 0, 1, 1, 0, 1, 1, 64, 0, 0, 0, 0, 0, 0];

#[test]
fn a_plan_and_its_orders(rt: HostRuntime) -> Result<(), Fail> {
    let mut plan = Plan::empty();
    assert!(rt; read(&SMALL, &mut plan).is_ok());
    match plan.branch_order() {
        Ok(branches) => assert!(rt; branches.at_or_above(0, 1) && !branches.at_or_above(1, 0)),
        Err(_) => return Err(Fail::new("the branches are an order")),
    }
    match plan.role_order() {
        Ok(roles) => {
            assert_eq!(rt; roles.count(), 1);
            Ok(())
        },
        Err(_) => Err(Fail::new("the roles are an order")),
    }
}

#[test]
fn a_refusal_leaves_the_plan(rt: HostRuntime) {
    let mut plan = Plan::empty();
    assert!(rt; read(&SMALL, &mut plan).is_ok());
    let mut other = SMALL;
    other[3] = 0;
    assert!(rt; read(&other, &mut plan).is_err());
    assert!(rt; plan.branch_count == 2 && plan.branches[1].kind == 1);
}
