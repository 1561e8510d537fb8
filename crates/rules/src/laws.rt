// The laws over whole lists of calls, and the marked lines. Each stands on the contract of a function, so that it has to be proved.
ghost use Rattle.rules.specs.Isolation.{Isolation};
ghost use Rattle.rules.specs.Marked.{ClassMeetsConditions, MarkedLines};
ghost use Rattle.rules.specs.Sold.{PlansSound, ReadPlansSound};

// No branch below the top acts beyond its reach. Every plan that has a branch and gives both orders meets the conditions of the
// law: so does every plan that was read, and the class.
pub fn kept_within_reach()
    ensures law { Isolation }
    ensures plans { PlansSound }
    ensures read { ReadPlansSound }
    ensures class { ClassMeetsConditions }
{}

// Two evenings of the class are answered as marked.
pub fn told_as_marked()
    ensures { MarkedLines }
{}
