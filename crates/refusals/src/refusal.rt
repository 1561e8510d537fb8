// A refusal as it is told: three numbers.
ghost use Rattle.std.specs.Prelude.{◌≡◌};
ghost use Rattle.refusals.specs.Place.{place_of};

// The number of the refusal, the layer that refuses, and the place, whose meaning goes with the number. Numbers and no enums: they
// are what is printed, as the rules give them. What is at fault is an enum (`FieldFault` and the like), and this is made from it.
#[derive(Clone, Copy, PartialEq, Eq, Debug)]
pub struct Refusal {
    pub number: u8,
    pub layer: u8,
    pub place: u16,
}

// A place as it is told: the largest that can be told stands for all beyond it.
pub fn place(at: usize) -> u16
    ensures { result ≡ place_of at }
{
    u16::try_from(at).unwrap_or(u16::MAX)
}
