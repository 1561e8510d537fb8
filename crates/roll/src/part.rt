// One branch's part of a roll: what is told of its records.
ghost use Rattle.std.specs.Prelude.{◌≡◌, ℕ, ◌&&◌, ◌||◌, is_none, length, nat_lt, slice_index_or, None};
ghost use Rattle.orders.specs.Masks.{has_bit};
ghost use Rattle.registers.specs.Meaning.{is_posting};
ghost use Rattle.roll.specs.Part.{among, is_other};
ghost use Rattle.std.specs.List.{position};

use registers::{Posting, with_bit};

// Finds the first record of a part that is free.
pub(crate) fn free_in(part: &[Option<Posting>]) -> Option<usize>
    ensures { result ≡ position is_none part.now }
{
    part.iter().position(|record| record.is_none())
}

// Tells whether a record posts another person than the posting's to the same role.
pub(crate) fn is_other(record: Option<Posting>, posting: Posting) -> bool
    ensures { result ≡ is_other «record» posting.person posting.role }
{
    record.is_some_and(|other| other.role == posting.role && other.person != posting.person)
}

// The mask with the role of a record that posts a person at a branch.
fn with_role(mask: u16, record: Option<Posting>, person: u8, branch: u8) -> u16
    ensures { (q : ℕ) → has_bit result q ≡ (has_bit mask q || (nat_lt q 16 && is_posting «record» person q branch)) }
{
    match record {
        Some(it) if branch == it.branch && person == it.person => with_bit(mask, it.role),
        _ => mask,
    }
}

// Tells to which roles a part posts a person.
pub(crate) fn roles_in(part: &[Option<Posting>], person: u8, branch: u8) -> u16
    ensures { (q : ℕ) → has_bit result q ≡ (nat_lt q 16 && among part.now (length part.now) person q branch) }
{
    part.iter()
        .fold(0, |mask, record| with_role(mask, *record, person, branch))
}
