// What is wrong with a posting, or with the memory for a register.
ghost use Rattle.std.specs.Prelude.{◌≡◌};
ghost use Rattle.registers.specs.Refusals.{register_refusal};

use refusals::{Refusal, place};

#[derive(Clone, Copy)]
pub enum RegisterFault {
    // there is no such person
    NoPerson,
    // there is no such role
    NoRole,
    // the branch is not one of the register's
    NoBranch,
    // the posting is there already; its branch
    Posted(u8),
    // the posting is not there; its branch
    NotPosted(u8),
    // the branch has as many postings as its share
    Full(u8),
    // the lent memory or the shares are unfit; the items of memory
    Unfit(usize),
}

// The three numbers that are told of the fault.
impl From<RegisterFault> for Refusal {
    ghost from_gives = { λ fault r. r ≡ register_refusal fault };

    fn from(fault: RegisterFault) -> Refusal {
        let (number, place) = match fault {
            RegisterFault::NoPerson => (4, 0),
            RegisterFault::NoRole => (4, 1),
            RegisterFault::NoBranch => (4, 2),
            RegisterFault::Posted(branch) => (19, branch as u16),
            RegisterFault::NotPosted(branch) => (20, branch as u16),
            RegisterFault::Full(branch) => (21, branch as u16),
            RegisterFault::Unfit(items) => (22, place(items)),
        };
        Refusal {
            number,
            layer: 4,
            place,
        }
    }
}
