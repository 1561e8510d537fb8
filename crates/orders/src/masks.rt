// Masks of sixteen bits: bit k set names the member, or the role, with the number k.
ghost use Rattle.std.specs.Prelude.{◌≡◌};
ghost use Rattle.orders.specs.Masks.{bit_of_member, has_bit, names_members};

// The bits of a mask.
const BITS: u8 = 16;

// Tells whether a mask names member `k`.
pub fn has_bit(mask: u16, k: u8) -> bool
    ensures { result ≡ has_bit mask k }
{
    k < BITS && (mask >> k) % 2 == 1
}

// Tells whether what a mask names at `k`, if anything, is a member.
fn bit_of_member(mask: u16, count: u16, k: u8) -> bool
    ensures { result ≡ bit_of_member mask count k }
{
    !has_bit(mask, k) || (k as u16) < count
}

// Tells whether a mask names none but the first `count` members.
pub fn names_members(mask: u16, count: u16) -> bool
    ensures { result ≡ names_members 16 mask count }
{
    (0..BITS).all(|k| bit_of_member(mask, count, k))
}
