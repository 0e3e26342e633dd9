//! Who acts on the node, and what a fabric's access control entries are.

ghost use Rattle.std.specs.Prelude.{◌≡◌, ◌↔◌, ◌==◌, not, nat_lt, filter, IsTrue};
ghost use Rattle.mt_model.specs.declared.tables.access.AclEntry.{AclEntry};
ghost use Rattle.mt_model.specs.tables.Access.{includes};
ghost use Rattle.mt_model.specs.tables.Entries.{mode_numbered, privilege_numbered};
ghost use Rattle.mt_model.specs.texts.Config.{ascend_from};

use crate::listed::{ExactCopy, Listed};
use std::alloc::AllocError;

/// A privilege (Matter Core Specification, section 6.6, Access Control). Each has the number that an entry of the
/// access control list has for it.
#[derive(Clone, Copy, Debug, PartialEq, Eq)]
pub enum Privilege {
    View = 1,
    ProxyView = 2,
    Operate = 3,
    Manage = 4,
    Administer = 5,
}

impl Privilege {
    /// Whether whoever has this privilege has the one asked for. Operate and ProxyView include View,
    /// Manage includes Operate and View, and Administer includes all.
    pub fn includes(self, asked: Privilege) -> bool
        ensures { result ≡ includes self asked }
    {
        match self {
            Privilege::View => asked == Privilege::View,
            Privilege::ProxyView => asked == Privilege::View || asked == Privilege::ProxyView,
            Privilege::Operate => asked == Privilege::View || asked == Privilege::Operate,
            Privilege::Manage => asked != Privilege::ProxyView && asked != Privilege::Administer,
            Privilege::Administer => true,
        }
    }

    /// The privilege that an entry has this number for.
    pub fn numbered(number: u64) -> Option<Privilege>
        ensures { result ≡ privilege_numbered number }
    {
        match number {
            1 => Some(Privilege::View),
            2 => Some(Privilege::ProxyView),
            3 => Some(Privilege::Operate),
            4 => Some(Privilege::Manage),
            5 => Some(Privilege::Administer),
            _ => None,
        }
    }
}

/// How a session's peer has proved who it is. Each has the number that an entry of the access
/// control list has for it.
#[derive(Clone, Copy, Debug, PartialEq, Eq)]
pub enum Auth {
    Pase = 1,
    Case = 2,
    Group = 3,
}

impl Auth {
    /// How a peer has proved who it is where an entry has this number.
    pub fn numbered(number: u64) -> Option<Auth>
        ensures { result ≡ mode_numbered number }
    {
        match number {
            1 => Some(Auth::Pase),
            2 => Some(Auth::Case),
            3 => Some(Auth::Group),
            _ => None,
        }
    }
}

/// Who asks: a node of a fabric, or whoever commissions the node (fabric 0).
#[derive(Clone, Copy, Debug, PartialEq, Eq)]
pub struct Actor {
    pub fabric: u8,
    pub auth: Auth,
    pub node: u64,
    /// The CATs of the actor's certificate: an identifier in the upper 16 bits, a version that is
    /// not 0 in the lower ones. 0 stands for none.
    pub cats: [u32; 3],
    /// The session over which it asks, where there is one.
    pub session: Option<u16>,
}

/// What an entry reaches (Matter Core Specification, section 9.10, Access Control Cluster): each field that is there
/// must fit the place.
#[derive(Clone, Copy, Debug, PartialEq, Eq)]
pub struct Target {
    pub cluster: Option<u32>,
    pub endpoint: Option<u16>,
    pub device: Option<u32>,
}

impl ExactCopy for Target {
    fn copy(&self) -> Result<Target, AllocError> {
        Ok(*self)
    }
}

/// Node ids and CATs, as entries name them.
pub type Subjects = Listed<u64>;

/// The targets of an entry.
pub type Targets = Listed<Target>;

/// An entry of the access control list (Matter Core Specification, section 9.10,
/// Access Control Cluster).
pub struct AclEntry {
    pub privilege: Privilege,
    pub auth: Auth,
    /// Whom it grants to; none stands for all.
    pub subjects: Subjects,
    /// What it grants; none stands for all.
    pub targets: Targets,
    pub fabric: u8,
}

impl Drop for AclEntry {
    fn drop(self) {
        let AclEntry {
            privilege: _,
            auth: _,
            subjects: _,
            targets: _,
            fabric: _,
        } = self;
    }
}

impl AclEntry {
    /// Whether the other entry is the same in all that it says.
    pub fn equals(&self, other: &AclEntry) -> bool
        ensures { IsTrue result ↔ (self.now ≡ other.now) }
    {
        self.fabric == other.fabric
            && self.privilege == other.privilege
            && self.auth == other.auth
            && are_same_subjects(self.subjects.as_slice(), other.subjects.as_slice())
            && are_same_targets(self.targets.as_slice(), other.targets.as_slice())
    }
}

fn are_same_subjects(subjects: &[u64], others: &[u64]) -> bool
    ensures { IsTrue result ↔ (subjects.now ≡ others.now) }
{
    subjects == others
}

fn are_same_targets(targets: &[Target], others: &[Target]) -> bool
    ensures { IsTrue result ↔ (targets.now ≡ others.now) }
{
    targets == others
}

impl ExactCopy for AclEntry {
    fn copy(&self) -> Result<AclEntry, AllocError> {
        Ok(AclEntry {
            privilege: self.privilege,
            auth: self.auth,
            subjects: self.subjects.copy()?,
            targets: self.targets.copy()?,
            fabric: self.fabric,
        })
    }
}

/// Entries, by ascending fabric and in each fabric's own order.
pub type AclEntries = Listed<AclEntry>;

/// Whether the entries ascend by fabric, the first of them from this fabric on.
#[tactic(auto, using(crate::proofs::OfFabric::ascends_at))]
pub fn entries_ascend_from(fabric: u8, entries: &[AclEntry]) -> bool
    ensures { result ≡ ascend_from fabric entries.now }
{
    let mut before = fabric;
    for entry in entries {
        if entry.fabric < before {
            return false;
        }
        before = entry.fabric;
    }
    true
}

/// The entries of a fabric, in their order: of entries that ascend by fabric they stand together. A caller
/// knows that they ascend by the type that has them, as `View` and a valid state, or asks `entries_ascend_from`.
pub fn entries_of(entries: &[AclEntry], fabric: u8) -> &[AclEntry]
    requires { IsTrue (ascend_from 1 entries.now) }
    ensures { result.now ≡ filter (λ (entry : AclEntry). entry.fabric == fabric) entries.now }
{
    let begin = entries.partition_point(
        |entry: &AclEntry| -> bool
            ensures { result ≡ nat_lt entry.now.fabric fabric }
        { entry.fabric < fabric },
    );
    let rest = &entries[begin..];
    let end = rest.partition_point(
        |entry: &AclEntry| -> bool
            ensures { result ≡ not (nat_lt fabric entry.now.fabric) }
        { entry.fabric <= fabric },
    );
    &rest[..end]
}
