//! The rows of a configuration, read out of JSON field by field.

ghost use Rattle.serde_json.specs.Find.{get_item};
ghost use Rattle.serde_json.specs.View.{view, items_view};
ghost use Rattle.mt_config.specs.Gives.{Gives};
ghost use Rattle.mt_config.specs.Json.{each};
ghost use Rattle.mt_config.specs.Rows.{privilege, mode, target, entry_of, entries_of, credentials, fabric_of, owner, cat, cat_or_none, cats, ids, keys, session, root, csr, join};

use crate::json::{FromJson, Unread, field, items, list, optional, text_field};
use mt_model::limits::{CATS, ENTRIES, SUBJECTS, TARGETS};
use mt_model::{
    AclEntry, Auth, Credentials, CsrRow, Fabric, JoinRow, Privilege, RootRow, SessionRow, Target,
};
use mt_tlv::Bytes;
use serde_json::Value;
use std::alloc::Global;

impl FromJson for Privilege {
    ghost form = { privilege };

    #[tactic(auto, unfolding(crate::specs::Rows::privilege))]
    fn from_json(alloc: Global, value: &Value) -> Result<Privilege, Unread> {
        match u8::from_json(alloc, value)? {
            1 => Ok(Privilege::View),
            2 => Ok(Privilege::ProxyView),
            3 => Ok(Privilege::Operate),
            4 => Ok(Privilege::Manage),
            5 => Ok(Privilege::Administer),
            _ => Err(Unread::Misformed),
        }
    }
}

impl FromJson for Auth {
    ghost form = { mode };

    #[tactic(auto, unfolding(crate::specs::Rows::mode))]
    fn from_json(alloc: Global, value: &Value) -> Result<Auth, Unread> {
        match u8::from_json(alloc, value)? {
            1 => Ok(Auth::Pase),
            2 => Ok(Auth::Case),
            3 => Ok(Auth::Group),
            _ => Err(Unread::Misformed),
        }
    }
}

impl FromJson for Target {
    ghost form = { target };

    #[tactic(auto, unfolding(crate::specs::Rows::target))]
    fn from_json(alloc: Global, value: &Value) -> Result<Target, Unread> {
        Ok(Target {
            cluster: optional(alloc, value, "cluster")?,
            endpoint: optional(alloc, value, "endpoint")?,
            device: optional(alloc, value, "device")?,
        })
    }
}

/// The access control entries of a fabric's row.
#[tactic(auto, unfolding(crate::specs::Rows::entries_of))]
pub(crate) fn entries(alloc: Global, fabric: u8, row: &Value) -> Result<Vec<AclEntry>, Unread>
    ensures { Gives (λ v. v.items) result (entries_of fabric (view row.now)) }
{
    let items = items(row, "acl", ENTRIES)?;
    each_entry(alloc, fabric, items)
}

fn each_entry(alloc: Global, fabric: u8, items: &[Value]) -> Result<Vec<AclEntry>, Unread>
    ensures { Gives (λ v. v.items) result (each (entry_of fabric) (items_view items.now)) }
{
    let mut entries = Vec::new(alloc);
    for item in items {
        entries.push(entry(alloc, fabric, item)?)?;
    }
    Ok(entries)
}

#[tactic(auto, unfolding(crate::specs::Rows::entry_of))]
fn entry(alloc: Global, fabric: u8, value: &Value) -> Result<AclEntry, Unread>
    ensures { Gives (λ x. x) result (entry_of fabric (view value.now)) }
{
    Ok(AclEntry {
        privilege: field(alloc, value, "privilege")?,
        auth: field(alloc, value, "mode")?,
        subjects: list(alloc, value, "subjects", SUBJECTS)?,
        targets: list(alloc, value, "targets", TARGETS)?,
        fabric,
    })
}

/// The fabric of a row, with this index.
#[tactic(auto, unfolding(crate::specs::Rows::fabric_of))]
pub(crate) fn fabric(alloc: Global, index: u8, row: &Value) -> Result<Fabric, Unread>
    ensures { Gives (λ x. x) result (fabric_of index (view row.now)) }
{
    Ok(Fabric {
        index,
        credentials: credentials(alloc, row)?,
        vendor: field(alloc, row, "vendor")?,
        label: text_field(alloc, row, "label")?,
    })
}

#[tactic(auto, unfolding(crate::specs::Rows::credentials))]
fn credentials(alloc: Global, row: &Value) -> Result<Credentials, Unread>
    ensures { Gives (λ x. x) result (credentials (view row.now)) }
{
    Ok(Credentials {
        root: field(alloc, row, "root")?,
        root_key: field(alloc, row, "root_key")?,
        fabric_id: field(alloc, row, "fabric_id")?,
        node_id: field(alloc, row, "node_id")?,
        noc: field(alloc, row, "noc")?,
        icac: field(alloc, row, "icac")?,
        ipk: field(alloc, row, "ipk")?,
    })
}

/// Of whose fabric a session is, and between which nodes.
#[derive(Drop)]
struct Owner {
    root_key: Bytes,
    fabric_id: u64,
    own_node: u64,
    peer_node: u64,
}

#[tactic(auto, unfolding(crate::specs::Rows::owner))]
fn session_owner(alloc: Global, auth: Auth, row: &Value) -> Result<Owner, Unread>
    ensures { Gives (λ x. x) result (owner auth (view row.now)) }
{
    match auth {
        Auth::Pase => Ok(Owner {
            root_key: Bytes::new(alloc),
            fabric_id: 0,
            own_node: 0,
            peer_node: 0,
        }),
        Auth::Case => Ok(Owner {
            root_key: field(alloc, row, "root_key")?,
            fabric_id: field(alloc, row, "fabric_id")?,
            own_node: field(alloc, row, "own_node")?,
            peer_node: field(alloc, row, "peer_node")?,
        }),
        Auth::Group => Err(Unread::Misformed),
    }
}

#[tactic(auto, unfolding(crate::specs::Rows::cat))]
fn cat(alloc: Global, value: &Value) -> Result<u32, Unread>
    ensures { Gives (λ x. x) result (cat (view value.now)) }
{
    let cat = u32::from_json(alloc, value)?;
    if cat % 0x1_0000 == 0 {
        return Err(Unread::Misformed);
    }
    Ok(cat)
}

// The CAT at this place, or 0 where there are fewer.
fn cat_at(alloc: Global, items: &[Value], place: usize) -> Result<u32, Unread>
    ensures { Gives (λ x. x) result (cat_or_none (get_item place (items_view items.now))) }
{
    if place < items.len() {
        cat(alloc, &items[place])
    } else {
        Ok(0)
    }
}

#[tactic(auto, unfolding(crate::specs::Rows::cats))]
fn cats(alloc: Global, row: &Value) -> Result<[u32; 3], Unread>
    ensures { Gives (λ x. x) result (cats (view row.now)) }
{
    let items = items(row, "cats", CATS)?;
    Ok([
        cat_at(alloc, items, 0)?,
        cat_at(alloc, items, 1)?,
        cat_at(alloc, items, 2)?,
    ])
}

/// A session's ids, from which boot it is and how its peer has proved who it is.
#[derive(Drop)]
struct Ids {
    session: u16,
    peer_session: u16,
    boot: u32,
    auth: Auth,
}

#[tactic(auto, unfolding(crate::specs::Rows::ids))]
fn session_ids(alloc: Global, row: &Value) -> Result<Ids, Unread>
    ensures { Gives (λ x. x) result (ids (view row.now)) }
{
    Ok(Ids {
        session: field(alloc, row, "session")?,
        peer_session: field(alloc, row, "peer_session")?,
        boot: field(alloc, row, "boot")?,
        auth: field(alloc, row, "mode")?,
    })
}

/// A session's keys and counters.
#[derive(Drop)]
struct Keys {
    key_in: [u8; 16],
    key_out: [u8; 16],
    counter_in: u32,
    counter_out: u32,
}

#[tactic(auto, unfolding(crate::specs::Rows::keys))]
fn session_keys(alloc: Global, row: &Value) -> Result<Keys, Unread>
    ensures { Gives (λ x. x) result (keys (view row.now)) }
{
    Ok(Keys {
        key_in: field(alloc, row, "key_in")?,
        key_out: field(alloc, row, "key_out")?,
        counter_in: field(alloc, row, "counter_in")?,
        counter_out: field(alloc, row, "counter_out")?,
    })
}

impl FromJson for SessionRow {
    ghost form = { session };

    #[tactic(auto, unfolding(crate::specs::Rows::session))]
    fn from_json(alloc: Global, row: &Value) -> Result<SessionRow, Unread> {
        let ids = session_ids(alloc, row)?;
        let owner = session_owner(alloc, ids.auth, row)?;
        let cats = cats(alloc, row)?;
        let keys = session_keys(alloc, row)?;
        let key_in = keys.key_in;
        let key_out = keys.key_out;
        Ok(SessionRow {
            session: ids.session,
            peer_session: ids.peer_session,
            boot: ids.boot,
            auth: ids.auth,
            root_key: owner.root_key,
            fabric_id: owner.fabric_id,
            own_node: owner.own_node,
            peer_node: owner.peer_node,
            cats,
            key_in,
            key_out,
            counter_in: keys.counter_in,
            counter_out: keys.counter_out,
        })
    }
}

impl FromJson for RootRow {
    ghost form = { root };

    #[tactic(auto, unfolding(crate::specs::Rows::root))]
    fn from_json(alloc: Global, row: &Value) -> Result<RootRow, Unread> {
        Ok(RootRow {
            cert: field(alloc, row, "cert")?,
            key: field(alloc, row, "key")?,
        })
    }
}

impl FromJson for CsrRow {
    ghost form = { csr };

    #[tactic(auto, unfolding(crate::specs::Rows::csr))]
    fn from_json(alloc: Global, row: &Value) -> Result<CsrRow, Unread> {
        Ok(CsrRow {
            nonce: field(alloc, row, "nonce")?,
            elements: field(alloc, row, "elements")?,
            signature: field(alloc, row, "signature")?,
        })
    }
}

impl FromJson for JoinRow {
    ghost form = { join };

    #[tactic(auto, unfolding(crate::specs::Rows::join))]
    fn from_json(alloc: Global, row: &Value) -> Result<JoinRow, Unread> {
        Ok(JoinRow {
            root: field(alloc, row, "root")?,
            noc: field(alloc, row, "noc")?,
            icac: field(alloc, row, "icac")?,
            nonce: field(alloc, row, "nonce")?,
            fabric_id: field(alloc, row, "fabric_id")?,
            node_id: field(alloc, row, "node_id")?,
        })
    }
}
