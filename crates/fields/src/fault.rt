// What is wrong with the fields of a plan or a message.
ghost use Rattle.std.specs.Prelude.{◌≡◌};
ghost use Rattle.fields.specs.Refusals.{field_refusal};

use refusals::{Refusal, place};

#[derive(Clone, Copy)]
pub enum FieldFault {
    // the version is not 1
    Version,
    // there are so many bytes, and that is not what the length says
    Length(usize),
    // the field at the offset does not fit, or the bytes from there on are left over
    Misfit(usize),
    // the field at the offset has a number that its rule does not allow
    Value(usize),
}

// The three numbers that are told of the fault.
impl From<FieldFault> for Refusal {
    ghost from_gives = { λ fault r. r ≡ field_refusal fault };

    fn from(fault: FieldFault) -> Refusal {
        let (number, at) = match fault {
            FieldFault::Version => (1, 0),
            FieldFault::Length(given) => (2, given),
            FieldFault::Misfit(at) => (3, at),
            FieldFault::Value(at) => (4, at),
        };
        Refusal {
            number,
            layer: 1,
            place: place(at),
        }
    }
}
