//! With which status the node answers about certificates and fabrics.

ghost use Rattle.std.specs.Prelude.{◌≡◌};
ghost use Rattle.mt_opcreds.specs.Responses.{code_of};

/// Why certificates, a label or an index are refused (Matter Core Specification, chapter 11, Operational
/// Credentials Cluster, NodeOperationalCertStatusEnum). Each has the number that a NOCResponse has for it.
#[derive(Clone, Copy, Debug, PartialEq, Eq)]
pub enum CertificateFault {
    /// The certificate answers another signing request.
    InvalidPublicKey = 1,
    /// The certificate's node id is not operational.
    InvalidNodeOpId = 2,
    /// The chain of certificates is no good.
    InvalidNoc = 3,
    /// No signing request went before.
    MissingCsr = 4,
    /// There is no room for one fabric more.
    TableFull = 5,
    /// The administrator is neither an operational node nor a CAT.
    InvalidAdminSubject = 6,
    /// A fabric of this identity is there.
    FabricConflict = 9,
    /// Another fabric has this label.
    LabelConflict = 10,
    /// No fabric has this index.
    InvalidFabricIndex = 11,
}

impl CertificateFault {
    /// The number, as it stands in a NOCResponse.
    pub fn code(self) -> u8
        ensures { result ≡ code_of self }
    {
        self as u8
    }
}
