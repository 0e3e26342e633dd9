//! Operational Credentials.

ghost use Rattle.std.specs.Prelude.{◌≡◌, map};
ghost use Rattle.mt_meta.specs.clusters.OperationalCredentials as rows;
ghost use Rattle.mt_meta.specs.declared.rows.Field.{Field};
ghost use Rattle.mt_names.specs.Columns.{entry, number_of};
ghost use Rattle.mt_names.specs.clusters.OperationalCredentials.{command_fields, response_fields, value_fields};

use crate::columns::Named;
use mt_meta::clusters::operational_credentials as table;

/// The attributes.
pub(crate) static ATTRIBUTES: [Named; 6] = [
    Named {
        number: table::NOCS,
        name: "NOCs",
    },
    Named {
        number: table::FABRICS,
        name: "Fabrics",
    },
    Named {
        number: table::SUPPORTED_FABRICS,
        name: "SupportedFabrics",
    },
    Named {
        number: table::COMMISSIONED_FABRICS,
        name: "CommissionedFabrics",
    },
    Named {
        number: table::TRUSTED_ROOT_CERTIFICATES,
        name: "TrustedRootCertificates",
    },
    Named {
        number: table::CURRENT_FABRIC_INDEX,
        name: "CurrentFabricIndex",
    },
];

/// The commands that it accepts.
pub(crate) static COMMANDS: [Named; 6] = [
    Named {
        number: table::CSR_REQUEST,
        name: "CSRRequest",
    },
    Named {
        number: table::ADD_NOC,
        name: "AddNOC",
    },
    Named {
        number: table::UPDATE_NOC,
        name: "UpdateNOC",
    },
    Named {
        number: table::UPDATE_FABRIC_LABEL,
        name: "UpdateFabricLabel",
    },
    Named {
        number: table::REMOVE_FABRIC,
        name: "RemoveFabric",
    },
    Named {
        number: table::ADD_TRUSTED_ROOT_CERTIFICATE,
        name: "AddTrustedRootCertificate",
    },
];

/// The commands with which it answers.
pub(crate) static RESPONSES: [Named; 2] = [
    Named {
        number: table::CSR_RESPONSE,
        name: "CSRResponse",
    },
    Named {
        number: table::NOC_RESPONSE,
        name: "NOCResponse",
    },
];

static CSR_REQUEST_FIELDS: [Named; 2] = [
    Named {
        number: 0,
        name: "csrNonce",
    },
    Named {
        number: 1,
        name: "isForUpdateNOC",
    },
];

static ADD_NOC_FIELDS: [Named; 5] = [
    Named {
        number: 0,
        name: "noc",
    },
    Named {
        number: 1,
        name: "icac",
    },
    Named {
        number: 2,
        name: "ipk",
    },
    Named {
        number: 3,
        name: "caseAdminSubject",
    },
    Named {
        number: 4,
        name: "adminVendorID",
    },
];

static UPDATE_NOC_FIELDS: [Named; 2] = [
    Named {
        number: 0,
        name: "noc",
    },
    Named {
        number: 1,
        name: "icac",
    },
];

static UPDATE_FABRIC_LABEL_FIELDS: [Named; 1] = [Named {
    number: 0,
    name: "label",
}];

static REMOVE_FABRIC_FIELDS: [Named; 1] = [Named {
    number: 0,
    name: "fabric",
}];

static ADD_TRUSTED_ROOT_CERTIFICATE_FIELDS: [Named; 1] = [Named {
    number: 0,
    name: "rootCertificate",
}];

/// The fields of a command that it accepts.
pub(crate) fn command_fields(command: u32) -> &'static [Named]
    ensures names { map entry result.now ≡ command_fields command }
    ensures numbers { map number_of result.now ≡ map (λ (field : Field). field.number) (rows.command_fields command) }
{
    match command {
        table::CSR_REQUEST => &CSR_REQUEST_FIELDS,
        table::ADD_NOC => &ADD_NOC_FIELDS,
        table::UPDATE_NOC => &UPDATE_NOC_FIELDS,
        table::UPDATE_FABRIC_LABEL => &UPDATE_FABRIC_LABEL_FIELDS,
        table::REMOVE_FABRIC => &REMOVE_FABRIC_FIELDS,
        table::ADD_TRUSTED_ROOT_CERTIFICATE => &ADD_TRUSTED_ROOT_CERTIFICATE_FIELDS,
        _ => &[],
    }
}

static CSR_RESPONSE_FIELDS: [Named; 2] = [
    Named {
        number: 0,
        name: "nocsrElements",
    },
    Named {
        number: 1,
        name: "attestationSignature",
    },
];

static NOC_RESPONSE_FIELDS: [Named; 3] = [
    Named {
        number: 0,
        name: "status",
    },
    Named {
        number: 1,
        name: "fabric",
    },
    Named {
        number: 2,
        name: "debugText",
    },
];

/// The fields of a command with which it answers.
pub(crate) fn response_fields(command: u32) -> &'static [Named]
    ensures { map entry result.now ≡ response_fields command }
{
    match command {
        table::CSR_RESPONSE => &CSR_RESPONSE_FIELDS,
        table::NOC_RESPONSE => &NOC_RESPONSE_FIELDS,
        _ => &[],
    }
}

static NOCS_FIELDS: [Named; 3] = [
    Named {
        number: 1,
        name: "noc",
    },
    Named {
        number: 2,
        name: "icac",
    },
    Named {
        number: 254,
        name: "fabric",
    },
];

static FABRICS_FIELDS: [Named; 6] = [
    Named {
        number: 1,
        name: "rootPublicKey",
    },
    Named {
        number: 2,
        name: "vendorID",
    },
    Named {
        number: 3,
        name: "fabricID",
    },
    Named {
        number: 4,
        name: "nodeID",
    },
    Named {
        number: 5,
        name: "label",
    },
    Named {
        number: 254,
        name: "fabric",
    },
];

/// The fields of a structure in the value of an attribute that nobody writes.
pub(crate) fn value_fields(attribute: u32) -> &'static [Named]
    ensures { map entry result.now ≡ value_fields attribute }
{
    match attribute {
        table::NOCS => &NOCS_FIELDS,
        table::FABRICS => &FABRICS_FIELDS,
        _ => &[],
    }
}
