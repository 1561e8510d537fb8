// What is wrong with a plan.
ghost use Rattle.std.specs.Prelude.{◌≡◌};
ghost use Rattle.plans.specs.declared.fault.PlanFault.TheVariants.{Field as InField, Rows as InRows};
ghost use Rattle.plans.specs.Refusals.{plan_refusal};

use fields::FieldFault;
use orders::{MOST_ROWS, RowsFault};
use refusals::{Refusal, place};

#[derive(Clone, Copy)]
pub enum PlanFault {
    // a field, the header or the end
    Field(FieldFault),
    // the rows of the roles are no order
    Rows(RowsFault),
    // the line at the offset repeats the pair of an earlier line of its list
    Repeated(usize),
}

impl From<FieldFault> for PlanFault {
    ghost from_gives = { λ fault r. r ≡ InField fault };

    fn from(fault: FieldFault) -> PlanFault {
        PlanFault::Field(fault)
    }
}

impl From<RowsFault> for PlanFault {
    ghost from_gives = { λ fault r. r ≡ InRows fault };

    fn from(fault: RowsFault) -> PlanFault {
        PlanFault::Rows(fault)
    }
}

// The three numbers that are told of the fault.
impl From<PlanFault> for Refusal {
    ghost from_gives = { λ fault r. r ≡ plan_refusal fault };

    fn from(fault: PlanFault) -> Refusal {
        let (number, at) = match fault {
            PlanFault::Field(fault) => return Refusal::from(fault),
            PlanFault::Rows(RowsFault::TooMany) => (5, MOST_ROWS),
            PlanFault::Rows(RowsFault::Row(role)) => (5, usize::from(role)),
            PlanFault::Repeated(at) => (6, at),
        };
        Refusal {
            number,
            layer: 2,
            place: place(at),
        }
    }
}
