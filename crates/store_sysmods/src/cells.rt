//! Columns that several tables share.

ghost use Rattle.std.specs.Prelude.{◌≡◌, ◌≢◌, ◌<◌, ◌∷◌, ℕ, List, [], Option, pos, IfOk, IfSome, IsErrOf};
ghost use Rattle.sqlite.specs.declared.types.Value.TheVariants.{Int, Text};
ghost use Rattle.sqlite.specs.Order.{Row};
ghost use Rattle.sqlite.specs.Values.{or_null};
ghost use Rattle.store_schema.specs.Forms.{AreOthers};
ghost use Rattle.store_schema.specs.Rows.{joined};
ghost use Rattle.terms.specs.Forms.{IsId};

use fields::{Id, IdList};
use std::alloc::Global;
use store_rows::ReadError;
use store_schema::Columns;

/// The ids of the next column. Returns `BadRow` if the SYSMOD's own id is among them.
pub(crate) fn read_other_ids(
    alloc: Global,
    columns: &mut Columns<'_>,
    id: Id,
) -> Result<IdList, ReadError>
    ensures read { IfOk result (λ list. (columns.old ≡ joined list ∷ columns.new) × AreOthers id list) }
    ensures none { IsErrOf result ReadError.BadRow → (list : List (List ℕ)) (rest : Row) → AreOthers id list
        → columns.old ≢ joined list ∷ rest }
    ensures fault { IsErrOf result ReadError.Fault → ⊥ }
{
    let list = columns.ids(alloc)?;
    if list.contains(id) {
        return Err(ReadError::BadRow);
    }
    Ok(list)
}

/// The requisites of an `++IF`: the next column's ids. Returns `BadRow` if there is none, or if the SYSMOD's own is
/// among them.
pub(crate) fn read_requisites(
    alloc: Global,
    columns: &mut Columns<'_>,
    id: Id,
) -> Result<IdList, ReadError>
    ensures read { IfOk result (λ list. (columns.old ≡ joined list ∷ columns.new) × AreOthers id list × (list ≢ [])) }
    ensures none { IsErrOf result ReadError.BadRow → (list : List (List ℕ)) (rest : Row) → AreOthers id list
        → list ≢ [] → columns.old ≢ joined list ∷ rest }
    ensures fault { IsErrOf result ReadError.Fault → ⊥ }
{
    let list = read_other_ids(alloc, columns, id)?;
    if list.is_empty() {
        return Err(ReadError::BadRow);
    }
    Ok(list)
}

/// The id in the next column, or none if the column is NULL. Returns `BadRow` if it is the SYSMOD's own.
pub(crate) fn read_other_id(columns: &mut Columns<'_>, id: Id) -> Result<Option<Id>, ReadError>
    ensures read { IfOk result (λ other. (columns.old ≡ or_null Text other ∷ columns.new)
        × IfSome other (λ o. IsId o × (o ≢ id))) }
    ensures none { IsErrOf result ReadError.BadRow → (other : Option (List ℕ)) (rest : Row)
        → IfSome other (λ o. IsId o × (o ≢ id)) → columns.old ≢ or_null Text other ∷ rest }
    ensures fault { IsErrOf result ReadError.Fault → ⊥ }
{
    let other = columns.optional()?;
    if other == Some(id) {
        return Err(ReadError::BadRow);
    }
    Ok(other)
}

/// The number of a `++VER` that is not the first for its SREL. Returns `BadRow` if it is below 2.
pub(crate) fn read_further_number(columns: &mut Columns<'_>) -> Result<u64, ReadError>
    ensures read { IfOk result (λ n. (columns.old ≡ Int (pos n) ∷ columns.new) × (1 < n)) }
    ensures none { IsErrOf result ReadError.BadRow → (n : ℕ) (rest : Row) → 1 < n
        → columns.old ≢ Int (pos n) ∷ rest }
    ensures fault { IsErrOf result ReadError.Fault → ⊥ }
{
    let number = columns.number()?;
    if number < 2 {
        return Err(ReadError::BadRow);
    }
    Ok(number)
}
