// An order kept as a row of bits for each member.
ghost use Rattle.std.specs.Prelude.{◌≡◌, true, is_ok, IfOk, slice_index};
ghost use Rattle.orders.specs.Rows.{covers, row_above, row_stands, rows_checked, stands_over, stands_over_all};
ghost use Rattle.refusals.specs.Checks.{verdict};
ghost use Rattle.orders.specs.RowsFacts.{above_inside, rows_antisymmetric, rows_reflexive, rows_transitive};

use crate::masks::{has_bit, names_members};
use crate::order::Order;
use refusals::must;

// The most members that an order by rows has, and the bits of a row.
pub const MOST_ROWS: usize = 16;

// An order in which bit i of a member's row is set exactly where member i is at or below it. An array and a count, and
// no vector: an order is copied.
#[derive(Clone, Copy)]
pub struct Rows {
    rows: [u16; MOST_ROWS],
    count: u8,
    // the check of `new` passes
    ghost sound: { is_ok (rows_checked 16 rows count) ≡ true },
}

// Why rows make no order. This and `Rows::new` stay apart from those of `Parents`: a generic making would take the test of a member and the
// fault, which are all of it, as parameters.
#[derive(Clone, Copy)]
pub enum RowsFault {
    // more members than a row has bits
    TooMany,
    // the lowest member whose row is at fault
    Row(u8),
}

impl Rows {
    // Makes the order of the first `count` rows, or tells what is wrong with them.
    #[tactic(auto, using(refusals::proofs::Rows::every_stops))]
    pub fn new(rows: [u16; MOST_ROWS], count: u8) -> Result<Rows, RowsFault>
        ensures answer { verdict result ≡ rows_checked 16 rows count }
        ensures holds { IfOk result (λ o. (o.rows ≡ rows) × (o.count ≡ count)) }
    {
        must(count as usize <= MOST_ROWS, RowsFault::TooMany)?;
        for q in 0..count {
            must(row_stands(&rows, count, q), RowsFault::Row(q))?;
        }
        Ok(Rows { rows, count })
    }
}

impl Order for Rows {
    ghost members = { λ o. o.count };

    ghost above = { λ o a b. row_above o.rows o.count a b };

    ghost inside = { λ o. above_inside o.rows o.count };

    ghost reflexive = { λ o. rows_reflexive 16 o.rows o.count o.sound };

    ghost transitive = { λ o. rows_transitive 16 o.rows o.count o.sound };

    ghost antisymmetric = { λ o. rows_antisymmetric 16 o.rows o.count o.sound };

    fn count(&self) -> u8 {
        self.count
    }

    fn at_or_above(&self, a: u8, b: u8) -> bool {
        a < self.count && b < self.count && has_bit(row_of(&self.rows, a), b)
    }
}

// Gives a member's row; past the last row, an empty one. The library's chain under the name of what it gives, as a byte and a share have
// it elsewhere: a generic function for the three would be this chain again.
fn row_of(rows: &[u16; MOST_ROWS], member: u8) -> u16
    ensures { result ≡ slice_index rows.now member }
{
    rows.get(member as usize).copied().unwrap_or(0)
}

// Tells whether the row of member `q` names `q`, none but members, and stands over the rows that it names. Rows and count stay two
// parameters: `row_stands(&rows, count, q)` is plainer than `Members { rows: &rows, count }.row_stands(q)` with a struct for it.
fn row_stands(rows: &[u16; MOST_ROWS], count: u8, q: u8) -> bool
    ensures { result ≡ row_stands 16 rows.now count q }
{
    let row = row_of(rows, q);
    has_bit(row, q) && names_members(row, count as u16) && stands_over_all(rows, count, q)
}

// Tells whether the row of member `q` stands over the row of each member that it names.
fn stands_over_all(rows: &[u16; MOST_ROWS], count: u8, q: u8) -> bool
    ensures { result ≡ stands_over_all 16 rows.now count q }
{
    let row = row_of(rows, q);
    (0..count).all(|p| stands_over(row, q, row_of(rows, p), p))
}

// Tells whether the row of member `q` is right about `p`: where it names `p`, it covers the other row, p's, which does not
// name `q` back, but where `p` is `q`.
fn stands_over(row: u16, q: u8, other: u16, p: u8) -> bool
    ensures { result ≡ stands_over 16 row q other p }
{
    !has_bit(row, p) || row_covers(row, other) && (p == q || !has_bit(other, q))
}

// Tells whether the upper row names all that the lower names.
fn row_covers(upper: u16, lower: u16) -> bool
    ensures { result ≡ covers 16 upper lower }
{
    (0..MOST_ROWS as u8).all(|k| !has_bit(lower, k) || has_bit(upper, k))
}
