// The kinds of call, and the number by which a message names each.
ghost use Rattle.std.specs.Prelude.{◌≡◌, IfOk};
ghost use Rattle.refusals.specs.Checks.{verdict, must};
ghost use Rattle.fields.specs.declared.fault.FieldFault.TheVariants.{Value};
ghost use Rattle.messages.specs.Calls.{kind_number};
ghost use Rattle.messages.specs.Numbers.{within};

use crate::limits::CALL_AT;
use fields::FieldFault;

#[derive(Clone, Copy)]
pub(crate) enum CallKind {
    Decide = 1,
    Grant = 2,
    Take = 3,
    Throughout = 4,
    Enrol = 5,
    Strike = 6,
    Open = 7,
    Close = 8,
    Permit = 9,
    Forbid = 10,
    Sit = 11,
}

// The number of the kind.
impl From<CallKind> for u8 {
    ghost from_gives = { λ kind number. number ≡ kind_number kind };

    fn from(kind: CallKind) -> u8 {
        kind as u8
    }
}

// The kind with the number; the field of the call is wrong where no kind has it.
impl TryFrom<u8> for CallKind {
    type Error = FieldFault;

    ghost try_from_gives = { λ number r. (verdict r ≡ must (within 1 number 11) (Value 3)) × IfOk r (λ kind. kind_number kind ≡ number) };

    fn try_from(number: u8) -> Result<CallKind, FieldFault> {
        match number {
            1 => Ok(CallKind::Decide),
            2 => Ok(CallKind::Grant),
            3 => Ok(CallKind::Take),
            4 => Ok(CallKind::Throughout),
            5 => Ok(CallKind::Enrol),
            6 => Ok(CallKind::Strike),
            7 => Ok(CallKind::Open),
            8 => Ok(CallKind::Close),
            9 => Ok(CallKind::Permit),
            10 => Ok(CallKind::Forbid),
            11 => Ok(CallKind::Sit),
            _ => Err(FieldFault::Value(CALL_AT)),
        }
    }
}
