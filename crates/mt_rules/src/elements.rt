//! The elements of an array, one after the other.

ghost use Rattle.std.specs.Prelude.{◌≡◌, IfOk, Option};
ghost use Rattle.mt_tlv.specs.Tree.{Tree};
ghost use Rattle.mt_tlv.specs.View.{elements};
ghost use Rattle.mt_model.specs.tables.Entries.{each_in};
ghost use Rattle.mt_rules.specs.Reading.{Reads};

use mt_model::Listed;
use mt_tlv::{Tag, Value};
use std::alloc::{AllocError, Global};

/// What `read` reads of each element of an array, in their order; None where it reads none of one. It fails where
/// a call of `read` does, or memory is missing for the list.
pub fn each<T: Drop, F: Fn(&Value) -> Result<Option<T>, AllocError>>(
    alloc: Global,
    members: &[(Tag, Value)],
    read: F,
) -> Result<Option<Listed<T>>, AllocError>
    requires { F.IsAlwaysCallable read }
    ensures { (item : Tree → Option T) → Reads (F.post read) item → IfOk result (λ items. items ≡ each_in item (elements members.now)) }
{
    let mut items = Listed::new(alloc);
    for member in members {
        let Some(item) = read(&member.1)? else {
            return Ok(None);
        };
        items.push(item)?;
    }
    Ok(Some(items))
}
