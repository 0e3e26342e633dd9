//! Verdicts on certificates, which are handed in: the node parses none itself.

ghost use Rattle.std.specs.Prelude.{◌≡◌, List, IfOk, IsTrue, option_copied};
ghost use Rattle.std.specs.List.{find, list_all};
ghost use Rattle.mt_model.specs.texts.Config.{is_csr, is_join, is_root};
ghost use Rattle.mt_model.specs.texts.Verdicts.{is_chain_of, is_cert_of, is_nonce_of};
ghost use Rattle.mt_model.specs.declared.texts.config.CsrRow.{CsrRow};
ghost use Rattle.mt_model.specs.declared.texts.config.JoinRow.{JoinRow};
ghost use Rattle.mt_model.specs.declared.texts.config.RootRow.{RootRow};

use crate::listed::ExactCopy;
use crate::texts::config::{Config, CsrRow, CsrRows, JoinRow, JoinRows, RootRow, RootRows};
use std::alloc::AllocError;

/// What was judged of certificates. A call answers the first row that fits, and None exactly where
/// none fits: what no row speaks of is no good. Every row keeps the rules of its kind (lengths of
/// certificates, keys, nonces and signatures).
pub trait Verdicts {
    /// The rows on root certificates.
    ghost roots: { Self → List RootRow };

    /// The rows on signing requests.
    ghost csrs: { Self → List CsrRow };

    /// The rows on chains of certificates.
    ghost joins: { Self → List JoinRow };

    /// The verdict on a root certificate.
    fn root(&self, cert: &[u8]) -> Option<&RootRow>
        ensures first { option_copied result ≡ find (is_cert_of cert.now) (roots self.now) }
        ensures rules { IsTrue (list_all is_root (roots self.now)) };

    /// The answer to a request for a certificate signing request with this nonce.
    fn csr(&self, nonce: &[u8]) -> Option<&CsrRow>
        ensures first { option_copied result ≡ find (is_nonce_of nonce.now) (csrs self.now) }
        ensures rules { IsTrue (list_all is_csr (csrs self.now)) };

    /// The verdict on a node's certificate under a root, with or without one between them.
    fn join(&self, root: &[u8], noc: &[u8], icac: &[u8]) -> Option<&JoinRow>
        ensures first { option_copied result ≡ find (is_chain_of root.now noc.now icac.now) (joins self.now) }
        ensures rules { IsTrue (list_all is_join (joins self.now)) };
}

/// The verdicts of a configuration.
pub struct TableVerdicts {
    pub roots: RootRows,
    pub csrs: CsrRows,
    pub joins: JoinRows,
    pub ghost roots_keep_rules: { IsTrue (list_all is_root roots) },
    pub ghost csrs_keep_rules: { IsTrue (list_all is_csr csrs) },
    pub ghost joins_keep_rules: { IsTrue (list_all is_join joins) },
}

impl Drop for TableVerdicts {
    fn drop(self) {
        let TableVerdicts {
            roots: _,
            csrs: _,
            joins: _,
        } = self;
    }
}

impl TableVerdicts {
    /// A copy of the verdicts of a configuration.
    #[tactic(auto, unfolding(crate::specs::texts::Config::are_roots, crate::specs::texts::Config::are_csrs, crate::specs::texts::Config::are_joins))]
    pub fn new(config: &Config) -> Result<TableVerdicts, AllocError>
        ensures roots { IfOk result (λ verdicts. verdicts.roots ≡ config.now.roots) }
        ensures csrs { IfOk result (λ verdicts. verdicts.csrs ≡ config.now.csrs) }
        ensures joins { IfOk result (λ verdicts. verdicts.joins ≡ config.now.joins) }
    {
        Ok(TableVerdicts {
            roots: config.roots.copy()?,
            csrs: config.csrs.copy()?,
            joins: config.joins.copy()?,
        })
    }
}

impl Verdicts for TableVerdicts {
    ghost roots = { λ verdicts. verdicts.roots };

    ghost csrs = { λ verdicts. verdicts.csrs };

    ghost joins = { λ verdicts. verdicts.joins };

    fn root(&self, cert: &[u8]) -> Option<&RootRow> {
        self.roots
            .as_slice()
            .iter()
            .find(|row| row.cert.as_slice() == cert)
    }

    fn csr(&self, nonce: &[u8]) -> Option<&CsrRow> {
        self.csrs
            .as_slice()
            .iter()
            .find(|row| row.nonce.as_slice() == nonce)
    }

    fn join(&self, root: &[u8], noc: &[u8], icac: &[u8]) -> Option<&JoinRow> {
        self.joins.as_slice().iter().find(|row| {
            row.root.as_slice() == root && row.noc.as_slice() == noc && row.icac.as_slice() == icac
        })
    }
}
