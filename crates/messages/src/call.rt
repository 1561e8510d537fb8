// The calls, each with what it is about.
ghost use Rattle.std.specs.Prelude.{◌≡◌};
ghost use Rattle.messages.specs.Calls.{kind_number, number_of, word_of};

use crate::kind::CallKind;
use lines::Word;

// Each call has its arguments by name: `Call::Grant { person, role, branch }` is plainer than a struct of three numbers within.
#[derive(Clone, Copy)]
pub enum Call {
    Decide { operation: u8, piece: u16 },
    Grant { person: u8, role: u8, branch: u8 },
    Take { person: u8, role: u8, branch: u8 },
    Throughout { person: u8, role: u8, branch: u8 },
    Enrol { person: u8, branch: u8 },
    Strike { person: u8, branch: u8 },
    Open { branch: u8 },
    Close { branch: u8 },
    Permit { operation: u8, kind: u8, role: u8 },
    Forbid { operation: u8, kind: u8, role: u8 },
    Sit,
}

impl Call {
    // What kind of call it is.
    pub(crate) fn kind(self) -> CallKind
        ensures { kind_number result ≡ number_of self }
    {
        match self {
            Call::Decide { .. } => CallKind::Decide,
            Call::Grant { .. } => CallKind::Grant,
            Call::Take { .. } => CallKind::Take,
            Call::Throughout { .. } => CallKind::Throughout,
            Call::Enrol { .. } => CallKind::Enrol,
            Call::Strike { .. } => CallKind::Strike,
            Call::Open { .. } => CallKind::Open,
            Call::Close { .. } => CallKind::Close,
            Call::Permit { .. } => CallKind::Permit,
            Call::Forbid { .. } => CallKind::Forbid,
            Call::Sit => CallKind::Sit,
        }
    }

    // The number by which a message names the call.
    pub fn number(self) -> u8
        ensures { result ≡ number_of self }
    {
        self.kind().into()
    }

    // The word that the call's line begins with. A method and no `From`: `call.word()` is what a reader would say.
    pub fn word(self) -> Word
        ensures { result ≡ word_of self }
    {
        match self {
            Call::Decide { .. } => Word::Decide,
            Call::Grant { .. } => Word::Grant,
            Call::Take { .. } => Word::Take,
            Call::Throughout { .. } => Word::Throughout,
            Call::Enrol { .. } => Word::Enrol,
            Call::Strike { .. } => Word::Strike,
            Call::Open { .. } => Word::Open,
            Call::Close { .. } => Word::Close,
            Call::Permit { .. } => Word::Permit,
            Call::Forbid { .. } => Word::Forbid,
            Call::Sit => Word::Sit,
        }
    }
}
