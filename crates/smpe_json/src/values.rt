//! Ids and texts as values, and the members of objects.
ghost use Rattle.std.specs.Prelude.{◌≡◌, map, IfOk, OnOk};
ghost use Rattle.serde_json.specs.Data.{string, put};
ghost use Rattle.serde_json.specs.View.{view, members_view};

use crate::texts::id_str;
use fields::Id;
use serde_json::{Map, Value, put};
use std::alloc::{AllocError, Global};

/// The members of an object.
pub(crate) type Members = Map<String, Value>;

/// Puts a text.
pub(crate) fn put_text(
    alloc: Global,
    members: &mut Members,
    name: &str,
    text: &str,
) -> Result<(), AllocError>
    ensures { OnOk result (members_view members.new.entries
        ≡ put name.now (string text.now) (members_view members.old.entries)) }
{
    put(members, alloc, name, Value::try_from_str(alloc, text)?)
}

/// Ids as a list of texts.
pub(crate) fn id_values(alloc: Global, ids: &[Id]) -> Result<Vec<Value>, AllocError>
    ensures { IfOk result (λ values. map view values.items ≡ map string ids.now) }
{
    let mut values = Vec::new(alloc);
    for id in ids {
        values.push(Value::try_from_str(alloc, id_str(id))?)?;
    }
    Ok(values)
}
