//! Group Key Management: what never changes of it.

ghost use Rattle.std.specs.Prelude.{◌≡◌};
ghost use Rattle.mt_apps.specs.GroupKeyManagement.{group_key_management_value};

use mt_meta::clusters::group_key_management::{MAX_GROUP_KEYS_PER_FABRIC, MAX_GROUPS_PER_FABRIC};
use mt_model::limits::{KEY_MAP_ITEMS, KEY_SETS};
use mt_tlv::Value;

/// How many groups a fabric may map, and how many key sets it may have, with set 0.
pub(crate) fn group_key_management_value(leaf: u32) -> Option<Value>
    ensures { result ≡ group_key_management_value leaf }
{
    match leaf {
        MAX_GROUPS_PER_FABRIC => Some(Value::Uint(KEY_MAP_ITEMS as u64)),
        MAX_GROUP_KEYS_PER_FABRIC => Some(Value::Uint(KEY_SETS as u64 + 1)),
        _ => None,
    }
}
