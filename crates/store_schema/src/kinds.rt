//! Kinds, types and flags.

ghost use Rattle.std.specs.Prelude.{◌≡◌, ◌≢◌, ◌∷◌, ℕ, Bool, pos, IfOk, IsErrOf};
ghost use Rattle.sqlite.specs.declared.types.Value.TheVariants.{Int, Text};
ghost use Rattle.sqlite.specs.Order.{Row as SqlRow};
ghost use Rattle.store_schema.specs.Rows.{flag};
ghost use Rattle.terms.specs.declared.kinds.Kind.{Kind as KindTerm};
ghost use Rattle.terms.specs.declared.kinds.HoldKind.{HoldKind as HoldTerm};
ghost use Rattle.terms.specs.declared.kinds.ElemType.{ElemType as TypeTerm};
ghost use Rattle.terms.specs.declared.kinds.ZoneKind.{ZoneKind as ZoneTerm};
ghost use Rattle.terms.specs.Spelling.{kind_text, hold_text, type_text, zone_kind_text};

use crate::columns::Columns;
use fields::spelling::{read_hold, read_kind, read_type, read_zone_kind};
use store_rows::ReadError;
use terms::{ElemType, HoldKind, Kind, ZoneKind};

impl Columns<'_> {
    /// The type of a SYSMOD, as the column spells it.
    pub fn kind(&mut self) -> Result<Kind, ReadError>
        ensures read { IfOk result (λ kind. self.old ≡ Text (kind_text kind) ∷ self.new) }
        ensures none { IsErrOf result ReadError.BadRow → (kind : KindTerm) (rest : SqlRow)
            → self.old ≢ Text (kind_text kind) ∷ rest }
        ensures fault { IsErrOf result ReadError.Fault → ⊥ }
    {
        read_kind(self.text()?).ok_or(ReadError::BadRow)
    }

    /// The kind of a hold, as the column spells it.
    pub fn hold_kind(&mut self) -> Result<HoldKind, ReadError>
        ensures read { IfOk result (λ kind. self.old ≡ Text (hold_text kind) ∷ self.new) }
        ensures none { IsErrOf result ReadError.BadRow → (kind : HoldTerm) (rest : SqlRow)
            → self.old ≢ Text (hold_text kind) ∷ rest }
        ensures fault { IsErrOf result ReadError.Fault → ⊥ }
    {
        read_hold(self.text()?).ok_or(ReadError::BadRow)
    }

    /// The type of an element, as the column spells it.
    pub fn elem_type(&mut self) -> Result<ElemType, ReadError>
        ensures read { IfOk result (λ type. self.old ≡ Text (type_text type) ∷ self.new) }
        ensures none { IsErrOf result ReadError.BadRow → (type : TypeTerm) (rest : SqlRow)
            → self.old ≢ Text (type_text type) ∷ rest }
        ensures fault { IsErrOf result ReadError.Fault → ⊥ }
    {
        read_type(self.text()?).ok_or(ReadError::BadRow)
    }

    /// The kind of a zone, as the column spells it.
    pub fn zone_kind(&mut self) -> Result<ZoneKind, ReadError>
        ensures read { IfOk result (λ kind. self.old ≡ Text (zone_kind_text kind) ∷ self.new) }
        ensures none { IsErrOf result ReadError.BadRow → (kind : ZoneTerm) (rest : SqlRow)
            → self.old ≢ Text (zone_kind_text kind) ∷ rest }
        ensures fault { IsErrOf result ReadError.Fault → ⊥ }
    {
        read_zone_kind(self.text()?).ok_or(ReadError::BadRow)
    }

    /// A yes or no, as the column has it: 1 or 0.
    pub fn flag(&mut self) -> Result<bool, ReadError>
        ensures read { IfOk result (λ b. self.old ≡ flag b ∷ self.new) }
        ensures none { IsErrOf result ReadError.BadRow → (b : Bool) (rest : SqlRow) → self.old ≢ flag b ∷ rest }
        ensures fault { IsErrOf result ReadError.Fault → ⊥ }
    {
        match self.integer()? {
            0 => Ok(false),
            1 => Ok(true),
            _ => Err(ReadError::BadRow),
        }
    }

    /// An integer that is not negative.
    pub fn number(&mut self) -> Result<u64, ReadError>
        ensures read { IfOk result (λ n. self.old ≡ Int (pos n) ∷ self.new) }
        ensures none { IsErrOf result ReadError.BadRow → (n : ℕ) (rest : SqlRow) → self.old ≢ Int (pos n) ∷ rest }
        ensures fault { IsErrOf result ReadError.Fault → ⊥ }
    {
        let number = self.integer()?;
        if number < 0 {
            return Err(ReadError::BadRow);
        }
        Ok(number as u64)
    }
}
