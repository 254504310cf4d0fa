//! The texts of elements.

ghost use Rattle.std.specs.Prelude.{◌≡◌, ◌≢◌, ◌∷◌, ℕ, List, IfOk, IsErrOf};
ghost use Rattle.sqlite.specs.Order.{Row as SqlRow};
ghost use Rattle.store_schema.specs.Forms.{IsTextOf};
ghost use Rattle.store_schema.specs.Rows.{records};

use crate::columns::Columns;
use std::alloc::Global;
use store_rows::ReadError;
use terms::ElemType;
use text80::{Line, Numbered};

impl Columns<'_> {
    /// The records of an element of this type. Returns `BadRow` if they should be numbered, as those of macros and
    /// sources, and are not.
    pub fn element_text(
        &mut self,
        alloc: Global,
        elem_type: ElemType,
    ) -> Result<Vec<Line>, ReadError>
        ensures read { IfOk result (λ text. (self.old ≡ records text.items ∷ self.new)
            × IsTextOf elem_type text.items) }
        ensures none { IsErrOf result ReadError.BadRow → (text : List (List ℕ)) (rest : SqlRow)
            → IsTextOf elem_type text → self.old ≢ records text ∷ rest }
        ensures fault { IsErrOf result ReadError.Fault → ⊥ }
    {
        let lines = self.records(alloc)?;
        if !elem_type.is_numbered() {
            return Ok(lines);
        }
        match Numbered::read(lines) {
            Ok(text) => Ok(text.into_lines()),
            Err(_) => Err(ReadError::BadRow),
        }
    }
}
