// Why a call is refused.
ghost use Rattle.std.specs.Prelude.{◌≡◌};
ghost use Rattle.rules.specs.Answers.{engine_refusal};
ghost use Rattle.rules.specs.declared.fault.EngineFault.TheVariants.{Register as OfRegister};

use refusals::Refusal;
use registers::RegisterFault;

#[derive(Clone, Copy)]
pub enum EngineFault {
    // there is no such person, role, branch, operation, kind or piece; its offset in the call's message
    NoSuchNumber(u8),
    // no post of the sitting is a candidate; the piece of a decision, or the branch
    NoCandidate(u16),
    // no line for the role serves a candidate, or no candidate's role is the principal or above; the role
    NotGoverned(u8),
    // the role may not stand at that branch
    CannotStand(u8),
    // the lowest-numbered branch at or above whose mark is closed
    Closed(u8),
    // the person does not belong to the branch
    Stranger(u8),
    // the person meets no line that serves; the lowest line for the role that serves the first candidate that has one
    Unmet(u8),
    // the person would have as many roles of the set as its bound, or more
    TooManyOf(u8),
    // as many other persons as the role's limit are posted to it there, or more
    LimitReached(u8),
    // no candidate has a role with the permit; the piece's kind
    NoPermit(u8),
    // the first post that does not count; its place in the sitting
    NotCounting(u8),
    // it is already so; the branch, or the kind of a permit
    AlreadySo(u8),
    // throughout finds no posting; the branch
    NothingFound(u8),
    // the register refuses
    Register(RegisterFault),
}

impl From<RegisterFault> for EngineFault {
    ghost from_gives = { λ refused r. r ≡ OfRegister refused };

    fn from(refused: RegisterFault) -> EngineFault {
        EngineFault::Register(refused)
    }
}

// The three numbers that are told of the fault; those of the register's keep its layer.
impl From<EngineFault> for Refusal {
    ghost from_gives = { λ fault r. r ≡ engine_refusal fault };

    fn from(fault: EngineFault) -> Refusal {
        let (number, place) = match fault {
            EngineFault::NoSuchNumber(offset) => (4, offset as u16),
            EngineFault::NoCandidate(place) => (8, place),
            EngineFault::NotGoverned(role) => (9, role as u16),
            EngineFault::CannotStand(role) => (10, role as u16),
            EngineFault::Closed(branch) => (11, branch as u16),
            EngineFault::Stranger(person) => (12, person as u16),
            EngineFault::Unmet(line) => (13, line as u16),
            EngineFault::TooManyOf(set) => (14, set as u16),
            EngineFault::LimitReached(role) => (15, role as u16),
            EngineFault::NoPermit(kind) => (16, kind as u16),
            EngineFault::NotCounting(place) => (17, place as u16),
            EngineFault::AlreadySo(place) => (18, place as u16),
            EngineFault::NothingFound(branch) => (20, branch as u16),
            EngineFault::Register(fault) => return Refusal::from(fault),
        };
        Refusal {
            number,
            layer: 3,
            place,
        }
    }
}
