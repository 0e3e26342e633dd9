//! The laws of the steps. Each is the contract of a function that does nothing.

ghost use Rattle.mt_admin.specs.Laws.{CommandsAreSound, TicksAreSound};

/// Where the actor's fabric and the fabrics' vendors are numbers of 64 bits, the steps of a command are such as a
/// node can take: each sets one value of the form of its attribute, in nobody's row, at a stored place that is
/// not fabric-scoped.
pub fn commands_are_sound()
    ensures { CommandsAreSound }
{}

/// So are the steps of a time step.
pub fn ticks_are_sound()
    ensures { TicksAreSound }
{}
