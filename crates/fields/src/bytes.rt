// Numbers in bytes. A read past the end gives 0: whether a field fits is a check of its own. The bytes and the offset stay two parameters:
// `byte(bytes, at)` is plainer than `Fields(bytes).byte(at)` with a struct around the slice.
ghost use Rattle.std.specs.Prelude.{◌≡◌, ◌<◌};
ghost use Rattle.fields.specs.Bytes.{byte_at, two_at};

// The byte at the offset. The library's chain under the name of what it gives.
pub fn byte(bytes: &[u8], at: usize) -> u8
    ensures { result ≡ byte_at bytes.now at }
{
    bytes.get(at).copied().unwrap_or(0)
}

// The number of two bytes at the offset, the first byte weighing 256.
pub fn two(bytes: &[u8], at: usize) -> u16
    ensures { result ≡ two_at bytes.now at }
{
    u16::from_be_bytes([byte(bytes, at), byte(bytes, at.saturating_add(1))])
}
