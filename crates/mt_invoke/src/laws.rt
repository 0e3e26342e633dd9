//! The law of denials. It is the contract of a function that does nothing.

ghost use Rattle.mt_invoke.specs.Laws.{DeniesCommandsExactly};

/// A command is refused with the status UNSUPPORTED_ACCESS exactly where neither the implicit entry nor an
/// entry of the actor's own fabric grants the privilege that is asked there.
pub fn command_denials_are_exact()
    ensures { DeniesCommandsExactly }
{}
