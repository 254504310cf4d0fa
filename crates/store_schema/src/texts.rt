//! Ids and names.

ghost use Rattle.std.specs.Prelude.{◌≡◌, ◌≢◌, ◌∷◌, ℕ, List, IfOk, IsErrOf};
ghost use Rattle.sqlite.specs.declared.types.Value.TheVariants.{Text};
ghost use Rattle.sqlite.specs.Order.{Row as SqlRow};
ghost use Rattle.terms.specs.Forms.{IsId, IsName, IsSource, IsSrel, IsZoneName};

use crate::columns::Columns;
use fields::{Id, Name, Source, Srel, ZoneName};
use store_rows::ReadError;

impl Columns<'_> {
    /// An id.
    pub fn id(&mut self) -> Result<Id, ReadError>
        ensures read { IfOk result (λ id. (self.old ≡ Text id ∷ self.new) × IsId id) }
        ensures none { IsErrOf result ReadError.BadRow → (id : List ℕ) (rest : SqlRow) → IsId id
            → self.old ≢ Text id ∷ rest }
        ensures fault { IsErrOf result ReadError.Fault → ⊥ }
    {
        Id::read(self.text()?).ok_or(ReadError::BadRow)
    }

    /// An SREL.
    pub fn srel(&mut self) -> Result<Srel, ReadError>
        ensures read { IfOk result (λ srel. (self.old ≡ Text srel ∷ self.new) × IsSrel srel) }
        ensures none { IsErrOf result ReadError.BadRow → (srel : List ℕ) (rest : SqlRow) → IsSrel srel
            → self.old ≢ Text srel ∷ rest }
        ensures fault { IsErrOf result ReadError.Fault → ⊥ }
    {
        Srel::read(self.text()?).ok_or(ReadError::BadRow)
    }

    /// The name of an element or a library.
    pub fn name(&mut self) -> Result<Name, ReadError>
        ensures read { IfOk result (λ name. (self.old ≡ Text name ∷ self.new) × IsName name) }
        ensures none { IsErrOf result ReadError.BadRow → (name : List ℕ) (rest : SqlRow) → IsName name
            → self.old ≢ Text name ∷ rest }
        ensures fault { IsErrOf result ReadError.Fault → ⊥ }
    {
        Name::read(self.text()?).ok_or(ReadError::BadRow)
    }

    /// The name of a zone.
    pub fn zone_name(&mut self) -> Result<ZoneName, ReadError>
        ensures read { IfOk result (λ name. (self.old ≡ Text name ∷ self.new) × IsZoneName name) }
        ensures none { IsErrOf result ReadError.BadRow → (name : List ℕ) (rest : SqlRow) → IsZoneName name
            → self.old ≢ Text name ∷ rest }
        ensures fault { IsErrOf result ReadError.Fault → ⊥ }
    {
        ZoneName::read(self.text()?).ok_or(ReadError::BadRow)
    }

    /// The name of a source.
    pub fn source(&mut self) -> Result<Source, ReadError>
        ensures read { IfOk result (λ name. (self.old ≡ Text name ∷ self.new) × IsSource name) }
        ensures none { IsErrOf result ReadError.BadRow → (name : List ℕ) (rest : SqlRow) → IsSource name
            → self.old ≢ Text name ∷ rest }
        ensures fault { IsErrOf result ReadError.Fault → ⊥ }
    {
        Source::read(self.text()?).ok_or(ReadError::BadRow)
    }
}
