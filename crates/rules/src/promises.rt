// The promises about the rules, each named by a contract.
ghost use Rattle.rules.specs.Promises.{AcceptedWhenAllowed, AnsweredForItsReason, BeginsFounded, CountedThroughout, DecidedAsModelled, MakesItsChange, RefusedChangesNothing};

// A new state has the founding posting, where the register takes it, and no other; nobody enrolled, every mark open, no permits.
pub fn begins_founded()
    ensures { BeginsFounded }
{}

// A call is accepted exactly when all that it names exists and its conditions hold.
pub fn accepted_when_allowed()
    ensures { AcceptedWhenAllowed }
{}

// A decision is yes exactly when the access model says so.
pub fn decided_as_modelled()
    ensures { DecidedAsModelled }
{}

// An accepted call makes exactly its change.
pub fn makes_its_change()
    ensures { MakesItsChange }
{}

// A refused call changes nothing.
pub fn refused_changes_nothing()
    ensures { RefusedChangesNothing }
{}

// The two numbers of throughout: how many of the postings found are gone after it, and how many are still there.
pub fn counted_throughout()
    ensures { CountedThroughout }
{}

// Every answer has its reason: a refusal tells the first that holds, and an acceptance names the first candidate that will do.
pub fn answered_for_its_reason()
    ensures { AnsweredForItsReason }
{}
