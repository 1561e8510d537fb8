// What an order is, whatever keeps it.
ghost use Rattle.std.specs.Prelude.{◌≡◌, ℕ, ◌<◌, Bool, true};

// Members numbered from 0, some of which are at or above others. A question leaves the order as it was.
pub trait Order {
    // how many members there are
    ghost members: { Self → ℕ };

    // whether the first is at or above the second
    ghost above: { Self → ℕ → ℕ → Bool };

    // Tells how many members there are.
    fn count(&self) -> u8
        ensures { result ≡ members self.now };

    // Tells whether `a` is at or above `b`; a number that is no member gets no.
    fn at_or_above(&self, a: u8, b: u8) -> bool
        ensures { result ≡ above self.now a b };

    // only members stand in the order
    ghost inside: { (o : Self) (a b : ℕ) → above o a b ≡ true → (a < members o) × (b < members o) };

    // a member is at or above itself
    ghost reflexive: { (o : Self) (a : ℕ) → a < members o → above o a a ≡ true };

    // what is at or above a member is at or above all that the member is
    ghost transitive: { (o : Self) (a b c : ℕ) → above o a b ≡ true → above o b c ≡ true → above o a c ≡ true };

    // two that are at or above each other are one
    ghost antisymmetric: { (o : Self) (a b : ℕ) → above o a b ≡ true → above o b a ≡ true → a ≡ b };
}
