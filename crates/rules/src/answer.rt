// What a call is answered.
ghost use Rattle.std.specs.Prelude.{◌≡◌};
ghost use Rattle.rules.specs.Answers.{numbers_of, told_of};

use crate::fault::EngineFault;
use refusals::Refusal;

// What an accepted call tells. A candidate is told by its place in the sitting, from 0.
#[derive(Clone, Copy)]
pub enum Accepted {
    // a decision: the candidate, and the role at or below its own that has the permit
    Allowed { place: u8, role: u8 },
    // a grant or a take: the candidate, and the line that serves it and is met
    Governed { place: u8, line: u8 },
    // throughout: how many postings were taken, and how many were found and left
    Cleared { taken: u16, left: u16 },
    // any other order: the candidate whose role is the principal or above
    Ordered { place: u8 },
    // sit: how many posts count
    Seated { posts: u8 },
}

// Accepted, or refused with a fault.
pub type Answer = Result<Accepted, EngineFault>;

impl Accepted {
    // The two numbers that are told of it. A method and no `From`: a pair of numbers is not the acceptance in another form.
    pub fn numbers(self) -> (u16, u16)
        ensures { result ≡ numbers_of self }
    {
        match self {
            Accepted::Allowed { place, role } => (place as u16, role as u16),
            Accepted::Governed { place, line } => (place as u16, line as u16),
            Accepted::Cleared { taken, left } => (taken, left),
            Accepted::Ordered { place } => (place as u16, 0),
            Accepted::Seated { posts } => (posts as u16, 0),
        }
    }
}

// The three numbers that are told of an answer: 0 and two of the acceptance, or those of the refusal. No `From`, which an alias of
// `Result` cannot have here.
pub fn told(answer: Answer) -> [u16; 3]
    ensures { result ≡ told_of answer }
{
    match answer {
        Ok(accepted) => {
            let (first, second) = accepted.numbers();
            [0, first, second]
        }
        Err(fault) => {
            let refusal = Refusal::from(fault);
            [refusal.number as u16, refusal.layer as u16, refusal.place]
        }
    }
}
