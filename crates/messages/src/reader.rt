// Reads a message from bytes, or says the first thing that is wrong with them.
ghost use Rattle.std.specs.Prelude.{◌≡◌, ◌≤◌, IfOk, MatchResult, OnOk};
ghost use Rattle.refusals.specs.Checks.{in_order, verdict};
ghost use Rattle.fields.specs.Bytes.{byte_at};
ghost use Rattle.fields.specs.Fields.{field_checked};
ghost use Rattle.fields.specs.Records.{filled};
ghost use Rattle.messages.specs.Numbers.{within};
ghost use Rattle.messages.specs.Reading.{IsCallOf, field_steps, message_result, Reads};
ghost use Rattle.messages.specs.Posts.{no_post};
ghost use Rattle.messages.specs.Said.{post_in, said, written};

use crate::arguments::{check_arguments, read_call, width};
use crate::fault::MessageFault;
use crate::kind::CallKind;
use crate::limits::{BODY, CALL_AT, COUNT_AT, PERSON_AT, POSTS, POSTS_AT};
use crate::message::Message;
use crate::post::Post;
use crate::posts::check_apart;
use crate::sitting::Sitting;
use fields::{
    FieldFault, PERSONS, byte, check_below, check_end, check_list, field, header, offset, read_list,
};

// The kind of call that stands in its field.
fn check_call(bytes: &[u8]) -> Result<CallKind, FieldFault>
    ensures answer { verdict result ≡ field_checked bytes.now 3 1 (within 1 (byte_at bytes.now 3) 11) }
    ensures kind { IfOk result (IsCallOf bytes.now) }
{
    field(bytes, CALL_AT, 1, true)?;
    CallKind::try_from(byte(bytes, CALL_AT))
}

// Tells whether somebody may sit under so many posts.
fn may_sit(count: u8) -> bool
    ensures { result ≡ within 1 count 4 }
{
    (1..=POSTS as u8).contains(&count)
}

// Checks each field of a message that has so many posts, and that nothing stands behind the last; says the kind of call.
fn check_fields(bytes: &[u8], count: u8) -> Result<CallKind, FieldFault>
    ensures answer { verdict result ≡ in_order (field_steps bytes.now (byte_at bytes.now 3) count) }
    ensures kind { IfOk result (IsCallOf bytes.now) }
    ensures few { OnOk result (count ≤ 4) }
{
    header(bytes, BODY)?;
    let kind = check_call(bytes)?;
    check_below(bytes, PERSON_AT, PERSONS as u16)?;
    field(bytes, COUNT_AT, 1, may_sit(count))?;
    check_list::<Post>(bytes, (), POSTS_AT, count as u16)?;
    let arguments = offset::<Post>(POSTS_AT, count as u16);
    check_arguments(bytes, kind, arguments)?;
    check_end(bytes, arguments as usize + width(kind) as usize)?;
    Ok(kind)
}

// All checks of a message, in the order of the format; gives the kind of call and the posts, with the empty post behind the last.
fn check_all(bytes: &[u8]) -> Result<(CallKind, [Post; POSTS]), MessageFault>
    ensures answer { verdict result ≡ message_result bytes.now }
    ensures kind { IfOk result (λ it. IsCallOf bytes.now it.0) }
    ensures posts { IfOk result (λ it. it.1 ≡ filled 4 (byte_at bytes.now 5) no_post (post_in bytes.now)) }
{
    let count = byte(bytes, COUNT_AT);
    let kind = check_fields(bytes, count)?;
    let posts = read_list(bytes, POSTS_AT, count as u16);
    check_apart(&posts[..count as usize])?;
    Ok((kind, posts))
}

// Says the first thing that is wrong with the message.
pub fn check(bytes: &[u8]) -> Result<(), MessageFault>
    ensures { result ≡ message_result bytes.now }
{
    check_all(bytes)?;
    Ok(())
}

// Reads the message into the place, or says the first thing that is wrong and leaves the place as it was.
pub fn read(bytes: &[u8], into: &mut Message) -> Result<(), MessageFault>
    ensures answer { result ≡ message_result bytes.now }
    ensures leaves { MatchResult result (λ _. Reads bytes.now into.new) (λ _. into.new ≡ into.old) }
    ensures written_back { OnOk result (written (said into.new) ≡ bytes.now) }
{
    let (kind, posts) = check_all(bytes)?;
    let count = byte(bytes, COUNT_AT);
    *into = Message {
        sitting: Sitting {
            person: byte(bytes, PERSON_AT),
            count,
            posts,
        },
        call: read_call(bytes, kind, offset::<Post>(POSTS_AT, count as u16)),
    };
    Ok(())
}
