// A grid and a roll alike: who is posted, and what is refused.
use grid::Grid;
use refusals::Refusal;
use registers::{Posting, Register, RegisterFault};
use roll::Roll;
use std::process::Abort;

// Three numbers that are told.
fn numbers(number: u8, layer: u8, place: u16) -> Refusal {
    Refusal {
        number,
        layer,
        place,
    }
}

// Who is posted to which role at which branch.
fn posting(person: u8, role: u8, branch: u8) -> Posting {
    Posting {
        person,
        role,
        branch,
    }
}

// What is told of an answer: zeros where nothing is refused.
fn told(answer: Result<(), RegisterFault>) -> Refusal {
    match answer {
        Ok(()) => numbers(0, 0, 0),
        Err(fault) => Refusal::from(fault),
    }
}

// What is to be told of a number: `fine` of the first so many, and of any other that there is no such number at its place.
fn expected(number: u8, count: u8, place: u16, fine: Refusal) -> Refusal {
    if number < count {
        fine
    } else {
        numbers(4, 4, place)
    }
}

// Puts and takes a number at each of the three places of a posting, each time with nobody posted.
fn try_number<R: Register>(rt: &impl Abort, register: &mut R, n: u8) {
    let branches = register.branch_count();
    register.clear();
    assert_eq!(rt;
        told(register.put(posting(n, 0, 0))),
        expected(n, 64, 0, numbers(0, 0, 0))
    );
    register.clear();
    assert_eq!(rt;
        told(register.put(posting(0, n, 0))),
        expected(n, 16, 1, numbers(0, 0, 0))
    );
    register.clear();
    assert_eq!(rt;
        told(register.put(posting(0, 0, n))),
        expected(n, branches, 2, numbers(0, 0, 0))
    );
    register.clear();
    assert_eq!(rt;
        told(register.take(posting(n, 0, 0))),
        expected(n, 64, 0, numbers(20, 4, 0))
    );
    assert_eq!(rt;
        told(register.take(posting(0, n, 0))),
        expected(n, 16, 1, numbers(20, 4, 0))
    );
    assert_eq!(rt;
        told(register.take(posting(0, 0, n))),
        expected(n, branches, 2, numbers(20, 4, n as u16))
    );
}

fn every_number<R: Register>(rt: &impl Abort, register: &mut R) {
    for n in 0..256u16 {
        try_number(rt, register, n as u8);
    }
}

// Two persons in one role at branch 1, and one of them in another role too.
fn two_persons<R: Register>(rt: &impl Abort, register: &mut R) {
    assert_eq!(rt; told(register.put(posting(5, 2, 1))), numbers(0, 0, 0));
    assert_eq!(rt; told(register.put(posting(6, 2, 1))), numbers(0, 0, 0));
    assert_eq!(rt; told(register.put(posting(5, 15, 1))), numbers(0, 0, 0));
    assert_eq!(rt; told(register.put(posting(6, 2, 1))), numbers(19, 4, 1));
    assert_eq!(rt; register.roles_of(5, 1), 32772);
    assert_eq!(rt; register.roles_of(5, 0), 0);
    assert_eq!(rt; register.others(posting(5, 2, 1)), 1);
    assert_eq!(rt; register.others(posting(7, 2, 1)), 2);
    assert_eq!(rt; register.others(posting(64, 2, 1)), 0);
    assert_eq!(rt; told(register.take(posting(5, 2, 1))), numbers(0, 0, 0));
    assert_eq!(rt; told(register.take(posting(5, 2, 1))), numbers(20, 4, 1));
    assert_eq!(rt; register.others(posting(7, 2, 1)), 1);
}

#[test]
fn a_grid(rt: HostRuntime) {
    let mut cells = [7; 192];
    let mut register = Grid::new(&mut cells, 3);
    assert_eq!(rt; register.share_of(2), Some(1024));
    assert_eq!(rt; register.share_of(3), None);
    two_persons(&rt, &mut register);
    every_number(&rt, &mut register);
}

#[test]
fn a_roll(rt: HostRuntime) {
    let mut records = [None; 6];
    let shares = [1, 3, 2];
    let mut register = Roll::new(&mut records, &shares, 3);
    assert_eq!(rt; register.share_of(1), Some(3));
    assert_eq!(rt; register.share_of(3), None);
    two_persons(&rt, &mut register);
    every_number(&rt, &mut register);
}

#[test]
fn a_full_branch(rt: HostRuntime) {
    let mut records = [None; 6];
    let shares = [1, 1, 1, 2];
    let mut register = Roll::new(&mut records, &shares, 4);
    assert_eq!(rt; told(register.put(posting(0, 0, 3))), numbers(0, 0, 0));
    assert_eq!(rt; told(register.put(posting(1, 0, 3))), numbers(0, 0, 0));
    assert_eq!(rt; told(register.put(posting(2, 0, 3))), numbers(21, 4, 3));
    assert_eq!(rt; told(register.put(posting(0, 0, 3))), numbers(19, 4, 3));
    assert_eq!(rt; told(register.take(posting(0, 0, 3))), numbers(0, 0, 0));
    assert_eq!(rt; told(register.put(posting(2, 0, 3))), numbers(0, 0, 0));
}

#[test]
fn unfit_memory(rt: HostRuntime) {
    assert_eq!(rt; told(Grid::check(&[0; 128], 2)), numbers(0, 0, 0));
    assert_eq!(rt; told(Grid::check(&[0; 127], 2)), numbers(22, 4, 127));
    assert_eq!(rt; told(Roll::check(&[None; 5], &[3, 2], 2)), numbers(0, 0, 0));
    assert_eq!(rt;
        told(Roll::check(&[None; 4], &[3, 2], 2)),
        numbers(22, 4, 4)
    );
    assert_eq!(rt;
        told(Roll::check(&[None; 5], &[3, 2], 3)),
        numbers(22, 4, 5)
    );
    assert_eq!(rt;
        told(Roll::check(&[None; 5], &[3, 2], 1)),
        numbers(22, 4, 5)
    );
    assert_eq!(rt;
        told(Roll::check(&[None; 5], &[0, 2], 2)),
        numbers(22, 4, 5)
    );
    assert_eq!(rt;
        told(Roll::check(&[None; 1025], &[1024], 1)),
        numbers(0, 0, 0)
    );
    assert_eq!(rt;
        told(Roll::check(&[None; 1025], &[1025], 1)),
        numbers(22, 4, 1025)
    );
}
