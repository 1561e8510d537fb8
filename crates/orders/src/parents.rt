// An order kept as the parent of each member.
ghost use Rattle.std.specs.Prelude.{◌≡◌, ℕ, ◌<◌, true, is_ok, IfOk};
ghost use Rattle.orders.specs.Parents.{parents_checked, stands_lower, tree_above};
ghost use Rattle.refusals.specs.Checks.{verdict};
ghost use Rattle.orders.specs.ParentsFacts.{parents_lower, tree_antisymmetric, tree_inside, tree_reflexive, tree_transitive};

use crate::order::Order;
use refusals::must;

// The most members that an order by parents has.
pub const MOST_PARENTS: usize = 64;

// An order in which each member but 0 names a lower-numbered parent, and stands below it and all above it.
// Member 0 is the top, and its entry is not looked at. An array and a count, and no vector or tree of boxes: an order is copied, and there
// is no heap.
#[derive(Clone, Copy)]
pub struct Parents {
    parents: [u8; MOST_PARENTS],
    count: u8,
    // the check of `new` passes
    ghost sound: { is_ok (parents_checked parents count) ≡ true },
}

// Why parents make no order; apart from why rows make none, as said there.
#[derive(Clone, Copy)]
pub enum ParentsFault {
    // more members than an order by parents has
    TooMany,
    // the lowest member whose parent is not lower than it
    NotLower(u8),
}

// Tells whether a member may have this parent: member 0 has none.
fn stands_lower(member: u8, parent: u8) -> bool
    ensures { result ≡ stands_lower member parent }
{
    member == 0 || parent < member
}

impl Parents {
    // Makes the order of the first `count` parents, or tells what is wrong with them.
    #[tactic(auto, using(refusals::proofs::Rows::every_stops))]
    pub fn new(parents: [u8; MOST_PARENTS], count: u8) -> Result<Parents, ParentsFault>
        ensures answer { verdict result ≡ parents_checked parents count }
        ensures holds { IfOk result (λ o. (o.parents ≡ parents) × (o.count ≡ count)) }
        ensures top { IfOk result (λ o. (b : ℕ) → b < count → tree_above o.parents o.count 0 b ≡ true) }
    {
        must(count as usize <= MOST_PARENTS, ParentsFault::TooMany)?;
        for m in 0..count {
            must(
                stands_lower(m, parents[m as usize]),
                ParentsFault::NotLower(m),
            )?;
        }
        Ok(Parents { parents, count })
    }
}

impl Order for Parents {
    ghost members = { λ o. o.count };

    ghost above = { λ o a b. tree_above o.parents o.count a b };

    ghost inside = { λ o. tree_inside o.parents o.count };

    ghost reflexive = { λ o. tree_reflexive o.parents o.count (parents_lower o.parents o.count o.sound) };

    ghost transitive = { λ o. tree_transitive o.parents o.count (parents_lower o.parents o.count o.sound) };

    ghost antisymmetric = { λ o. tree_antisymmetric o.parents o.count (parents_lower o.parents o.count o.sound) };

    fn count(&self) -> u8 {
        self.count
    }

    fn at_or_above(&self, a: u8, b: u8) -> bool {
        if a >= self.count || b >= self.count {
            return false;
        }
        let mut at = b;
        while at > a {
            at = self.parents[at as usize];
        }
        at == a
    }
}
