// Where a message ends, and where the run does.
ghost use Rattle.std.specs.Prelude.{◌≡◌, ◌≤◌};
ghost use Rattle.bench.specs.Framing.{body_wanted, ends_run};

use fields::{FieldFault, two};
use messages::{BODY, MessageFault};

// How many bytes of the body to read behind these three: what the length says, but no more than a message may have.
pub(crate) fn wanted(header: &[u8]) -> usize
    ensures says { result ≡ body_wanted header.now }
    ensures fits { result ≤ 14 }
{
    two(header, 1).min(BODY) as usize
}

// Tells whether nothing says any more where the next message begins.
pub(crate) fn ends_the_run(fault: MessageFault) -> bool
    ensures { result ≡ ends_run fault }
{
    match fault {
        MessageFault::Field(FieldFault::Version) => true,
        MessageFault::Field(FieldFault::Length(_)) => true,
        MessageFault::Field(FieldFault::Misfit(_)) => false,
        MessageFault::Field(FieldFault::Value(_)) => false,
        MessageFault::Twice(_) => false,
    }
}
