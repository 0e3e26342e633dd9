//! The fields of each row of a configuration, as the tables on configurations have them.

ghost use Rattle.std.specs.Prelude.{◌≡◌, map};
ghost use Rattle.mt_check.specs.Tables.{csr_fields, entry_fields, fabric_fields, join_fields, object_fields, owner_fields, root_fields, session_fields, target_fields, row};

use crate::forms::{Field, Form};
use mt_model::limits::{
    CATS, CERTIFICATE_BYTES, ELEMENTS_BYTES, ENTRIES, FABRICS, IPK_BYTES, LABEL_BYTES, NETWORKS,
    NONCE_BYTES, ROOT_KEY_BYTES, SESSIONS, SIGNATURE_BYTES, SUBJECTS, TARGETS, VERDICTS,
};

static OBJECT: [Field; 6] = [
    Field {
        name: "fabrics",
        needed: false,
        form: Form::List { most: FABRICS },
    },
    Field {
        name: "sessions",
        needed: false,
        form: Form::List { most: SESSIONS },
    },
    Field {
        name: "roots",
        needed: false,
        form: Form::List { most: VERDICTS },
    },
    Field {
        name: "csrs",
        needed: false,
        form: Form::List { most: VERDICTS },
    },
    Field {
        name: "joins",
        needed: false,
        form: Form::List { most: VERDICTS },
    },
    Field {
        name: "reachable",
        needed: false,
        form: Form::List { most: NETWORKS },
    },
];

/// The lists of a configuration.
pub(crate) fn object_fields() -> &'static [Field]
    ensures { map row result.now ≡ object_fields }
{
    &OBJECT
}

static FABRIC: [Field; 10] = [
    Field {
        name: "root",
        needed: true,
        form: Form::Bytes {
            least: 1,
            most: CERTIFICATE_BYTES,
        },
    },
    Field {
        name: "root_key",
        needed: true,
        form: Form::Bytes {
            least: ROOT_KEY_BYTES,
            most: ROOT_KEY_BYTES,
        },
    },
    Field {
        name: "fabric_id",
        needed: true,
        form: Form::Id,
    },
    Field {
        name: "node_id",
        needed: true,
        form: Form::Node,
    },
    Field {
        name: "noc",
        needed: true,
        form: Form::Bytes {
            least: 1,
            most: CERTIFICATE_BYTES,
        },
    },
    Field {
        name: "icac",
        needed: true,
        form: Form::Bytes {
            least: 0,
            most: CERTIFICATE_BYTES,
        },
    },
    Field {
        name: "ipk",
        needed: true,
        form: Form::Bytes {
            least: IPK_BYTES,
            most: IPK_BYTES,
        },
    },
    Field {
        name: "vendor",
        needed: true,
        form: Form::Number {
            least: 0,
            most: 0xffff,
        },
    },
    Field {
        name: "label",
        needed: true,
        form: Form::Text { most: LABEL_BYTES },
    },
    Field {
        name: "acl",
        needed: false,
        form: Form::List { most: ENTRIES },
    },
];

/// The fields of a fabric.
pub(crate) fn fabric_fields() -> &'static [Field]
    ensures { map row result.now ≡ fabric_fields }
{
    &FABRIC
}

static ENTRY: [Field; 4] = [
    Field {
        name: "privilege",
        needed: true,
        form: Form::Number { least: 1, most: 5 },
    },
    Field {
        name: "mode",
        needed: true,
        form: Form::Number { least: 2, most: 3 },
    },
    Field {
        name: "subjects",
        needed: false,
        form: Form::List { most: SUBJECTS },
    },
    Field {
        name: "targets",
        needed: false,
        form: Form::List { most: TARGETS },
    },
];

/// The fields of an access control entry.
pub(crate) fn entry_fields() -> &'static [Field]
    ensures { map row result.now ≡ entry_fields }
{
    &ENTRY
}

static TARGET: [Field; 3] = [
    Field {
        name: "cluster",
        needed: false,
        form: Form::NumberOrNull { most: 0xffff_ffff },
    },
    Field {
        name: "endpoint",
        needed: false,
        form: Form::NumberOrNull { most: 0xffff },
    },
    Field {
        name: "device",
        needed: false,
        form: Form::NumberOrNull { most: 0xffff_ffff },
    },
];

/// The fields of a target of an entry.
pub(crate) fn target_fields() -> &'static [Field]
    ensures { map row result.now ≡ target_fields }
{
    &TARGET
}

static SESSION: [Field; 9] = [
    Field {
        name: "session",
        needed: true,
        form: Form::Number {
            least: 1,
            most: 0xffff,
        },
    },
    Field {
        name: "peer_session",
        needed: true,
        form: Form::Number {
            least: 1,
            most: 0xffff,
        },
    },
    Field {
        name: "boot",
        needed: true,
        form: Form::Number {
            least: 1,
            most: 0xffff_ffff,
        },
    },
    Field {
        name: "mode",
        needed: true,
        form: Form::Number { least: 1, most: 2 },
    },
    Field {
        name: "cats",
        needed: false,
        form: Form::List { most: CATS },
    },
    Field {
        name: "key_in",
        needed: true,
        form: Form::Bytes {
            least: 16,
            most: 16,
        },
    },
    Field {
        name: "key_out",
        needed: true,
        form: Form::Bytes {
            least: 16,
            most: 16,
        },
    },
    Field {
        name: "counter_in",
        needed: true,
        form: Form::Number {
            least: 0,
            most: 0xffff_ffff,
        },
    },
    Field {
        name: "counter_out",
        needed: true,
        form: Form::Number {
            least: 0,
            most: 0xffff_ffff,
        },
    },
];

/// The fields of a session, on PASE and on CASE.
pub(crate) fn session_fields() -> &'static [Field]
    ensures { map row result.now ≡ session_fields }
{
    &SESSION
}

static OWNER: [Field; 4] = [
    Field {
        name: "root_key",
        needed: true,
        form: Form::Bytes {
            least: ROOT_KEY_BYTES,
            most: ROOT_KEY_BYTES,
        },
    },
    Field {
        name: "fabric_id",
        needed: true,
        form: Form::Id,
    },
    Field {
        name: "own_node",
        needed: true,
        form: Form::Id,
    },
    Field {
        name: "peer_node",
        needed: true,
        form: Form::Id,
    },
];

/// The fields of a session that are for CASE alone.
pub(crate) fn owner_fields() -> &'static [Field]
    ensures { map row result.now ≡ owner_fields }
{
    &OWNER
}

static ROOT: [Field; 2] = [
    Field {
        name: "cert",
        needed: true,
        form: Form::Bytes {
            least: 1,
            most: CERTIFICATE_BYTES,
        },
    },
    Field {
        name: "key",
        needed: true,
        form: Form::Bytes {
            least: ROOT_KEY_BYTES,
            most: ROOT_KEY_BYTES,
        },
    },
];

/// The fields of a verdict on a root certificate.
pub(crate) fn root_fields() -> &'static [Field]
    ensures { map row result.now ≡ root_fields }
{
    &ROOT
}

static CSR: [Field; 3] = [
    Field {
        name: "nonce",
        needed: true,
        form: Form::Bytes {
            least: NONCE_BYTES,
            most: NONCE_BYTES,
        },
    },
    Field {
        name: "elements",
        needed: true,
        form: Form::Bytes {
            least: 1,
            most: ELEMENTS_BYTES,
        },
    },
    Field {
        name: "signature",
        needed: true,
        form: Form::Bytes {
            least: SIGNATURE_BYTES,
            most: SIGNATURE_BYTES,
        },
    },
];

/// The fields of an answer to a request for a signing request.
pub(crate) fn csr_fields() -> &'static [Field]
    ensures { map row result.now ≡ csr_fields }
{
    &CSR
}

static JOIN: [Field; 6] = [
    Field {
        name: "root",
        needed: true,
        form: Form::Bytes {
            least: 1,
            most: CERTIFICATE_BYTES,
        },
    },
    Field {
        name: "noc",
        needed: true,
        form: Form::Bytes {
            least: 1,
            most: CERTIFICATE_BYTES,
        },
    },
    Field {
        name: "icac",
        needed: true,
        form: Form::Bytes {
            least: 0,
            most: CERTIFICATE_BYTES,
        },
    },
    Field {
        name: "nonce",
        needed: true,
        form: Form::Bytes {
            least: NONCE_BYTES,
            most: NONCE_BYTES,
        },
    },
    Field {
        name: "fabric_id",
        needed: true,
        form: Form::Id,
    },
    Field {
        name: "node_id",
        needed: true,
        form: Form::Id,
    },
];

/// The fields of a verdict on a chain of certificates.
pub(crate) fn join_fields() -> &'static [Field]
    ensures { map row result.now ≡ join_fields }
{
    &JOIN
}
