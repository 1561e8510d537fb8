// The checks of the header, of each field and of the end.
ghost use Rattle.std.specs.Prelude.{◌≡◌, nat_lt};
ghost use Rattle.fields.specs.Bytes.{byte_at};
ghost use Rattle.fields.specs.Fields.{header_checked, field_checked, end_checked};

use crate::bytes::{byte, two};
use crate::fault::FieldFault;
use refusals::must;

// Version 1, and a length of at most `most` that says how many bytes follow.
pub fn header(bytes: &[u8], most: u16) -> Result<(), FieldFault>
    ensures { result ≡ header_checked bytes.now most }
{
    let given = bytes.len();
    must(given >= 3, FieldFault::Length(given))?;
    must(byte(bytes, 0) == 1, FieldFault::Version)?;
    let length = two(bytes, 1);
    must(
        length <= most && given == 3 + length as usize,
        FieldFault::Length(given),
    )
}

// The field of so many bytes at the offset fits, and then its rule holds.
pub fn field(bytes: &[u8], at: usize, size: usize, rule: bool) -> Result<(), FieldFault>
    ensures { result ≡ field_checked bytes.now at size rule }
{
    let given = bytes.len();
    must(at <= given && size <= given - at, FieldFault::Misfit(at))?;
    must(rule, FieldFault::Value(at))
}

// The byte at the offset fits, and is below the limit.
pub fn check_below(bytes: &[u8], at: usize, limit: u16) -> Result<(), FieldFault>
    ensures { result ≡ field_checked bytes.now at 1 (nat_lt (byte_at bytes.now at) limit) }
{
    field(bytes, at, 1, u16::from(byte(bytes, at)) < limit)
}

// Nothing is left over behind the last field.
pub fn check_end(bytes: &[u8], at: usize) -> Result<(), FieldFault>
    ensures { result ≡ end_checked bytes.now at }
{
    must(bytes.len() <= at, FieldFault::Misfit(at))
}
