// Bytes written in hexadecimal, in groups that may be repeated. Not by the kit's `hex`, whose errors are
// others than what this program says of a wrong group.
ghost use Rattle.std.specs.Prelude.{◌<◌, IfOk};

use anyhow::{Context, anyhow};
use std::alloc::Global;

// The value of one digit.
fn digit(byte: u8) -> anyhow::Result<u8>
    ensures { IfOk result (λ value. value < 16) }
{
    let value = char::from(byte)
        .to_digit(16)
        .context("not a hexadecimal digit")?;
    Ok(value as u8)
}

// Adds the bytes of a group of digits.
fn add_group(group: &[u8], into: &mut Vec<u8>) -> anyhow::Result<()> {
    if group.len() % 2 != 0 {
        return Err(anyhow!("a group has two digits for each byte"));
    }
    for pair in group.chunks_exact(2) {
        into.push(16 * digit(pair[0])? + digit(pair[1])?)?;
    }
    Ok(())
}

// Adds the bytes of a group of digits so many times.
fn add_times(group: &[u8], times: u32, into: &mut Vec<u8>) -> anyhow::Result<()> {
    for _ in 0..times {
        add_group(group, into)?;
    }
    Ok(())
}

// The bytes that a text of groups stands for.
pub(crate) fn bytes_of(heap: Global, text: &str) -> anyhow::Result<Vec<u8>> {
    let mut bytes = Vec::new(heap);
    for group in text.split_whitespace() {
        match group.split_once('*') {
            Some((digits, times)) => add_times(
                digits.as_bytes(),
                times.parse::<u32>()?,
                &mut bytes,
            )?,
            None => add_group(group.as_bytes(), &mut bytes)?,
        }
    }
    Ok(bytes)
}
