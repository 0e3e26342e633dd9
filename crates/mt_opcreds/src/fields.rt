//! What stands in the fields of more than one command.

ghost use Rattle.std.specs.Prelude.{◌≡◌};
ghost use Rattle.mt_meta.specs.Given.{number_of};
ghost use Rattle.mt_opcreds.specs.Fields.{icac_in, noc_in, short_of};

use mt_meta::{number_of, octets_of};
use mt_tlv::Value;

/// The number of a field of 16 bits.
pub(crate) fn short(fields: &Value, number: u8) -> u16
    ensures { result ≡ short_of (number_of number fields.now) }
{
    let value = number_of(fields, number);
    if value <= 0xffff { value as u16 } else { 0 }
}

/// The NOC of AddNOC and of UpdateNOC.
pub(crate) fn noc(fields: &Value) -> &[u8]
    ensures { result.now ≡ noc_in fields.now }
{
    octets_of(fields, 0)
}

/// The ICAC of AddNOC and of UpdateNOC, no bytes where there is none.
pub(crate) fn icac(fields: &Value) -> &[u8]
    ensures { result.now ≡ icac_in fields.now }
{
    octets_of(fields, 1)
}
