//! Laws of what a read answers. Each is the contract of a function that does nothing.

ghost use Rattle.mt_read.specs.Denials.{DeniesReadsExactly, LeavesOutAttributesExactly};

/// A read is denied exactly where neither the implicit entry nor an entry of the reader's own fabric
/// grants what is asked there. A path that names one place is then answered with UNSUPPORTED_ACCESS; of
/// what a wildcard names, the place is left out, as it is where its data is known.
pub fn read_denials_are_exact()
    ensures concrete { DeniesReadsExactly }
    ensures wildcard { LeavesOutAttributesExactly }
{}
