//! The laws of the steps. They are the contract of a function that does nothing.

ghost use Rattle.mt_groupkeys.specs.Laws.{NobodyMakesSteps, SortedAreThose, SortedAscend, StepsAreSound};

/// Where the key sets of a fabric and the items of its GroupKeyMap have their form, and are no more than it may
/// have, the steps of its commands leave it so: each sets the rows of that fabric, at a stored place of which every
/// fabric has its own. Whoever has no fabric makes no step.
pub fn steps_are_sound()
    ensures sound { StepsAreSound }
    ensures nobody { NobodyMakesSteps }
{}

/// The ids that are told of a fabric's sets ascend, and each is told as often as a set has it.
pub fn sorted_ids_are_those()
    ensures ascend { SortedAscend }
    ensures those { SortedAreThose }
{}
