//! What holds of the steps of each command, over the definitions alone. Each is the contract of a function that does
//! nothing.

ghost use Rattle.mt_opcreds.specs.Laws.{StepsAreWellFormed, StepsFit};
ghost use Rattle.mt_opcreds.specs.Moves.{StepsAreMoves};

/// What a step puts into the state keeps the rules on fabrics, certificates, labels and access control entries,
/// where the verdicts and the actor's own credentials keep them, and the fields have the form of the command.
pub fn steps_are_well_formed()
    ensures { StepsAreWellFormed }
{}

/// The node may take each step as it stands: the fail-safe may note it, a fabric that joins has an index, an identity and
/// a label of its own, one that is updated keeps its identity, a label is no other fabric's, and a fabric that goes is there.
/// 0 is no fabric's index, and whoever does not ask over PASE is of a fabric.
pub fn steps_fit()
    ensures { StepsFit }
{}

/// The steps of a command are of a few forms: none; one, behind which the entries of a fabric that joins are set, and
/// one that leaves is told of; or an expiry, and then the leaving of the fabric for which commissioning went on.
pub fn steps_are_moves()
    ensures { StepsAreMoves }
{}
