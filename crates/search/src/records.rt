// The first record that fits.
ghost use Rattle.std.specs.Prelude.{◌≡◌, Bool, length, slice_index_or};
ghost use Rattle.search.specs.Searches.{first_below};
ghost use Rattle.std.specs.List.{position};

// What is sought among records of one kind.
pub trait Sought<T> {
    // whether a record fits what is sought
    ghost seeks: { Self → T → Bool };

    // Tells whether the record fits what is sought.
    fn fits(&self, item: &T) -> bool
        ensures { result ≡ seeks self.now item.now };
}

// The place of the first record that fits, as the library's search tells it.
fn position_of<T, S: Sought<T>>(records: &[T], sought: &S) -> Option<usize>
    ensures { result ≡ position (S.Sought.seeks sought.now) records.now }
{
    records.iter().position(|record| sought.fits(record))
}

// Finds the place of the first record that fits.
pub fn first<T, S: Sought<T>>(records: &[T], sought: &S) -> Option<usize>
    ensures { (d : T) → result ≡ first_below (length records.now) (λ k. S.Sought.seeks sought.now (slice_index_or records.now k d)) }
{
    position_of(records, sought)
}
