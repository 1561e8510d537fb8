// Writes a message as bytes into memory that the caller lends.
ghost use Rattle.std.specs.Prelude.{◌≡◌, ◌+◌, ◌≤◌, ◌++◌, length, take, drop, Ok, MatchResult, OnOk};
ghost use Rattle.std.specs.List.{flat_map};
ghost use Rattle.messages.specs.Reading.{message_result};
ghost use Rattle.messages.specs.Arguments.{arguments_of};
ghost use Rattle.messages.specs.Posts.{post_bytes};
ghost use Rattle.messages.specs.Said.{said, said_in, written};
ghost use Rattle.messages.specs.Writing.{write_result};

use crate::arguments::width;
use crate::call::Call;
use crate::fault::MessageFault;
use crate::limits::{LEAD, MESSAGE, POST, VERSION};
use crate::message::Message;
use crate::reader::check;
use crate::sitting::Sitting;
use arrayvec::ArrayVec;
use fields::FieldFault;
use refusals::must;

// Adds the posts of the sitting.
fn add_posts(bytes: &mut ArrayVec<u8, MESSAGE>, sitting: &Sitting)
    requires { length bytes.old.items ≤ 6 }
    ensures { bytes.new.items ≡ bytes.old.items ++ flat_map post_bytes (take sitting.now.count sitting.now.posts) }
{
    for post in &sitting.posts[..sitting.count as usize] {
        bytes.push(post.role);
        bytes.push(post.branch);
    }
}

// Adds the arguments of the call.
fn add_arguments(bytes: &mut ArrayVec<u8, MESSAGE>, call: Call)
    requires { length bytes.old.items + 3 ≤ 17 }
    ensures { bytes.new.items ≡ bytes.old.items ++ arguments_of call }
{
    match call {
        Call::Decide { operation, piece } => {
            let [high, low] = piece.to_be_bytes();
            bytes
                .try_extend_from_slice(&[operation, high, low])
                .unwrap()
        }
        Call::Grant {
            person,
            role,
            branch,
        }
        | Call::Take {
            person,
            role,
            branch,
        }
        | Call::Throughout {
            person,
            role,
            branch,
        } => bytes
            .try_extend_from_slice(&[person, role, branch])
            .unwrap(),
        Call::Enrol { person, branch } | Call::Strike { person, branch } => {
            bytes.try_extend_from_slice(&[person, branch]).unwrap()
        }
        Call::Open { branch } | Call::Close { branch } => bytes.push(branch),
        Call::Permit {
            operation,
            kind,
            role,
        }
        | Call::Forbid {
            operation,
            kind,
            role,
        } => bytes
            .try_extend_from_slice(&[operation, kind, role])
            .unwrap(),
        Call::Sit => (),
    }
}

// The bytes of the message.
fn bytes_of(message: &Message) -> ArrayVec<u8, MESSAGE>
    ensures { result.items ≡ written (said message.now) }
{
    let kind = message.call.kind();
    let count = message.sitting.count;
    let body = LEAD + POST * count + width(kind);
    let mut bytes = ArrayVec::new();
    bytes
        .try_extend_from_slice(&[VERSION, 0, body, kind.into(), message.sitting.person, count])
        .unwrap();
    add_posts(&mut bytes, &message.sitting);
    add_arguments(&mut bytes, message.call);
    bytes
}

// Writes the message at the start of the memory, and says how many bytes it has; a message that the reader would refuse is not written.
pub fn write(message: &Message, into: &mut [u8]) -> Result<usize, MessageFault>
    ensures answer { result ≡ write_result (said message.now) (length into.old) }
    ensures leaves { MatchResult result (λ n. into.new ≡ written (said message.now) ++ drop n into.old) (λ _. into.new ≡ into.old) }
    ensures read_back { OnOk result ((message_result (written (said message.now)) ≡ Ok tt) × (said_in (written (said message.now)) ≡ said message.now)) }
{
    must(into.len() >= MESSAGE, FieldFault::Length(into.len()))?;
    let bytes = bytes_of(message);
    check(&bytes)?;
    into[..bytes.len()].copy_from_slice(&bytes);
    Ok(bytes.len())
}
