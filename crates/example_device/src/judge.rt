//! A judge of certificates.

ghost use Rattle.std.specs.Prelude.{[]};

use mt_model::{CsrRow, JoinRow, RootRow, Verdicts};

/// Knows no certificate that is good, and signs nothing: so nobody joins this node by a command.
pub(crate) struct NoneIsGood;

impl Verdicts for NoneIsGood {
    ghost roots = { λ _. [] };

    ghost csrs = { λ _. [] };

    ghost joins = { λ _. [] };

    fn root(&self, _cert: &[u8]) -> Option<&RootRow> {
        None
    }

    fn csr(&self, _nonce: &[u8]) -> Option<&CsrRow> {
        None
    }

    fn join(&self, _root: &[u8], _noc: &[u8], _icac: &[u8]) -> Option<&JoinRow> {
        None
    }
}
