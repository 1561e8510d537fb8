// What a register is, whatever keeps it.
ghost use Rattle.std.specs.Prelude.{◌≡◌, ℕ, Bool, false, MatchResult};
ghost use Rattle.orders.specs.Masks.{has_bit};
ghost use Rattle.registers.specs.Meaning.{Inside, KeepsShares, OwnShares, added, others_at, put_checked, removed, share_told, take_checked};

use crate::fault::RegisterFault;
use crate::posting::Posting;

// A set of postings and, for each of its branches, a share: how many postings the branch may
// have. A question leaves the register as it was, and so does a put or a take that is refused.
pub trait Register {
    // whether a person is posted to a role at a branch
    ghost posted: { Self → ℕ → ℕ → ℕ → Bool };

    // how many branches it has
    ghost branches: { Self → ℕ };

    // how many postings a branch may have
    ghost share: { Self → ℕ → ℕ };

    // Tells how many branches it has.
    fn branch_count(&self) -> u8
        ensures { result ≡ branches self.now };

    // Tells a branch's share; a branch that is not its own has none.
    fn share_of(&self, branch: u8) -> Option<u16>
        ensures { result ≡ share_told (branches self.now) (share self.now) branch };

    // Tells to which roles a person is posted at a branch: bit i stands for role i. Person and branch stay two parameters: a posting without
    // its role is nothing that has a name.
    fn roles_of(&self, person: u8, branch: u8) -> u16
        ensures { (q : ℕ) → has_bit result q ≡ posted self.now person q branch };

    // Tells how many persons other than this one are posted to the role at the branch.
    fn others(&self, posting: Posting) -> u8
        ensures { result ≡ others_at (posted self.now) posting.person posting.role posting.branch };

    // Adds a posting.
    fn put(&mut self, posting: Posting) -> Result<(), RegisterFault>
        ensures answer { result ≡ put_checked (posted self.old) (branches self.old) (share self.old) posting.person posting.role posting.branch }
        ensures leaves { MatchResult result (λ _. (x y z : ℕ) → posted self.new x y z ≡ added (posted self.old) posting.person posting.role posting.branch x y z) (λ _. self.new ≡ self.old) }
        ensures keeps { KeepsShares (branches self.old) (share self.old) (branches self.new) (share self.new) };

    // Removes a posting.
    fn take(&mut self, posting: Posting) -> Result<(), RegisterFault>
        ensures answer { result ≡ take_checked (posted self.old) (branches self.old) posting.person posting.role posting.branch }
        ensures leaves { MatchResult result (λ _. (x y z : ℕ) → posted self.new x y z ≡ removed (posted self.old) posting.person posting.role posting.branch x y z) (λ _. self.new ≡ self.old) }
        ensures keeps { KeepsShares (branches self.old) (share self.old) (branches self.new) (share self.new) };

    // Removes all postings.
    fn clear(&mut self)
        ensures leaves { (x y z : ℕ) → posted self.new x y z ≡ false }
        ensures keeps { KeepsShares (branches self.old) (share self.old) (branches self.new) (share self.new) };

    // nobody is posted who is no person, to no role, or at a branch that is not the register's own
    ghost inside: { (r : Self) → Inside (posted r) (branches r) };

    // a branch that is not the register's own has no share
    ghost shares: { (r : Self) → OwnShares (branches r) (share r) };
}
