// One bit of a mask of sixteen, set or cleared.
ghost use Rattle.std.specs.Prelude.{◌≡◌, ℕ, not, ◌&&◌, ◌||◌, ◌==◌, nat_lt};
ghost use Rattle.orders.specs.Masks.{has_bit};

use fields::ROLES;

// The mask with bit `k` set; past the sixteenth there is none to set or clear.
pub fn with_bit(mask: u16, k: u8) -> u16
    ensures { (q : ℕ) → has_bit result q ≡ (has_bit mask q || (q == k && nat_lt k 16)) }
{
    if (k as usize) >= ROLES {
        return mask;
    }
    mask | (1 << k)
}

// The mask `from` with bit `k` cleared.
pub fn without_bit(from: u16, k: u8) -> u16
    ensures { (q : ℕ) → has_bit result q ≡ (has_bit from q && not (q == k && nat_lt k 16)) }
{
    if (k as usize) >= ROLES {
        return from;
    }
    from & !(1 << k)
}
