//! The law of the steps. It is the contract of a function that does nothing.

ghost use Rattle.mt_commission.specs.Laws.{StepsAreSound, StepsStandFirst};

/// Where a command's fields have the form of the table, its steps are such as a node can take: each row is
/// nobody's, at a stored place that is not fabric-scoped, one value of the form of its attribute; each network
/// is there or has the form of one and finds room; the fail-safe is armed for the actor's fabric where it is not
/// armed, renewed, and let expire, by who has armed it, and completed by the fabric for which commissioning goes on.
pub fn steps_are_sound()
    ensures { StepsAreSound }
{}

/// Behind its first step a command sets nothing but values of attributes.
pub fn steps_stand_first()
    ensures { StepsStandFirst }
{}
