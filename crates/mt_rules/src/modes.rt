//! Fields of an access control entry.

ghost use Rattle.std.specs.Prelude.{◌≡◌, option_and_then};
ghost use Rattle.mt_tlv.specs.Scalars.{unsigned_in};
ghost use Rattle.mt_tlv.specs.View.{elements};
ghost use Rattle.mt_model.specs.tables.Entries.{mode_numbered, privilege_numbered};
ghost use Rattle.mt_model.specs.Trees.{field_in};

use mt_meta::clusters::access_control::{AUTH_MODE, PRIVILEGE};
use mt_model::{Auth, Privilege, field, unsigned_of};
use mt_tlv::{Tag, Value};

/// The privilege that the fields of an entry name, None where field 1 is missing or the number of none.
pub fn privilege_in(members: &[(Tag, Value)]) -> Option<Privilege>
    ensures { result ≡ option_and_then privilege_numbered (option_and_then unsigned_in (field_in 1 (elements members.now))) }
{
    Privilege::numbered(unsigned_of(field(members, PRIVILEGE)?)?)
}

/// The mode that the fields of an entry name, None where field 2 is missing or the number of none.
pub fn mode_in(members: &[(Tag, Value)]) -> Option<Auth>
    ensures { result ≡ option_and_then mode_numbered (option_and_then unsigned_in (field_in 2 (elements members.now))) }
{
    Auth::numbered(unsigned_of(field(members, AUTH_MODE)?)?)
}
