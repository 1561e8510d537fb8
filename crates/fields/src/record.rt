// Records of one kind that stand one behind the other, and how all of them are checked and read.
ghost use Rattle.std.specs.Prelude.{◌≡◌, ℕ, ◌+◌, ◌*◌, cond, List, Result, nat_lt};
ghost use Rattle.refusals.specs.Checks.{every};
ghost use Rattle.fields.specs.declared.fault.FieldFault.{FieldFault as Fault};
ghost use Rattle.fields.specs.Records.{filled};

use crate::fault::FieldFault;
use std::array;

// A record of a fixed number of bytes. Its default value stands in the places behind the last record of a list.
pub trait Record: Copy + Default {
    // what a record's rules look at besides its own bytes
    type Scope: Copy;

    // how many bytes a record has
    const WIDTH: u8;

    ghost WIDTH: { ℕ };

    // the checks of the record that stands at an offset and has a number in its list
    ghost checked: { List ℕ → Self.Scope → ℕ → ℕ → Result (Unit {0}) Fault };

    // the record that stands at an offset
    ghost made: { List ℕ → ℕ → Self };

    // what stands in the places behind the last record
    ghost empty: { Self };

    fn check(bytes: &[u8], scope: Self::Scope, at: u32, number: u16) -> Result<(), FieldFault>
        ensures { result ≡ checked bytes.now scope at number };

    fn read(bytes: &[u8], at: u32) -> Self
        ensures { result ≡ made bytes.now at };

    // the default value is the empty record
    ghost blank: { (x : Self) → Self.is_default x → x ≡ empty };
}

// The offset of a record in a list whose first record is at `first`.
pub fn offset<T: Record>(first: u16, number: u16) -> u32
    ensures { result ≡ first + T.WIDTH * number }
{
    first as u32 + T::WIDTH as u32 * number as u32
}

// Checks the records of a list, the first of them at `first`. `first` and `count` stay two parameters, here and in the two functions below:
// a struct of both would be made for the call, as `check_list::<Post>(bytes, (), List { first: POSTS_AT, count })`.
pub fn check_list<T: Record>(
    bytes: &[u8],
    scope: T::Scope,
    first: u16,
    count: u16,
) -> Result<(), FieldFault>
    ensures { result ≡ every count (λ k. T.Record.checked bytes.now scope (first + T.WIDTH * k) k) }
{
    for number in 0..count {
        T::check(bytes, scope, offset::<T>(first, number), number)?;
    }
    Ok(())
}

// The record with a number in a list, the first of them at `first`; behind the last one, the empty record.
fn entry<T: Record>(bytes: &[u8], first: u16, count: u16, number: usize) -> T
    ensures { result ≡ cond (nat_lt number count) (T.Record.made bytes.now (first + T.WIDTH * number)) T.Record.empty }
{
    if number < count as usize {
        T::read(bytes, offset::<T>(first, number as u16))
    } else {
        T::default()
    }
}

// Reads the records of a list, the first of them at `first`; the places behind the last one get the empty record.
pub fn read_list<T: Record, const N: usize>(bytes: &[u8], first: u16, count: u16) -> [T; N]
    ensures { result ≡ filled N count T.Record.empty (λ k. T.Record.made bytes.now (first + T.WIDTH * k)) }
{
    array::from_fn(|number| entry::<T>(bytes, first, count, number))
}
