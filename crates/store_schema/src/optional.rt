//! Columns whose value is a text or NULL.

ghost use Rattle.std.specs.Prelude.{◌≡◌, ◌≢◌, ◌∷◌, ℕ, List, Option, IfOk, IfSome, IsErrOf};
ghost use Rattle.sqlite.specs.declared.types.Value.TheVariants.{Text};
ghost use Rattle.sqlite.specs.Order.{Row as SqlRow};
ghost use Rattle.sqlite.specs.Values.{or_null};
ghost use Rattle.sqlite_value.specs.Value.{owned};

use crate::columns::Columns;
use fields::{Class, HoldDate, Id, Name, YyDdd, ZoneName};
use sqlite_value::value::ValueRef;
use store_rows::ReadError;

/// A value that a column stores as its text.
pub trait TextValue: Sized {
    ghost use Rattle.std.specs.Prelude.{◌≡◌, ◌↔◌, ℕ, List, IsSome, IfSome};

    ghost form: { List ℕ → Type 0 };

    ghost text: { Self → List ℕ };

    /// The value of this text.
    fn read(bytes: &[u8]) -> Option<Self>
        ensures good { IsSome result ↔ form bytes.now }
        ensures same { IfSome result (λ read. text read ≡ bytes.now) };

    /// Its text.
    fn as_text(&self) -> &[u8]
        ensures { result.now ≡ text self.now };
}

impl TextValue for Id {
    ghost use Rattle.terms.specs.Forms.{IsId};

    ghost form = { IsId };

    ghost text = { λ value. value };

    fn read(bytes: &[u8]) -> Option<Id> {
        Id::read(bytes)
    }

    fn as_text(&self) -> &[u8] {
        self.as_bytes()
    }
}

impl TextValue for Name {
    ghost use Rattle.terms.specs.Forms.{IsName};

    ghost form = { IsName };

    ghost text = { λ value. value };

    fn read(bytes: &[u8]) -> Option<Name> {
        Name::read(bytes)
    }

    fn as_text(&self) -> &[u8] {
        self.as_bytes()
    }
}

impl TextValue for ZoneName {
    ghost use Rattle.terms.specs.Forms.{IsZoneName};

    ghost form = { IsZoneName };

    ghost text = { λ value. value };

    fn read(bytes: &[u8]) -> Option<ZoneName> {
        ZoneName::read(bytes)
    }

    fn as_text(&self) -> &[u8] {
        self.as_bytes()
    }
}

impl TextValue for YyDdd {
    ghost use Rattle.terms.specs.Forms.{IsDottedDate};

    ghost form = { IsDottedDate };

    ghost text = { λ value. value };

    fn read(bytes: &[u8]) -> Option<YyDdd> {
        YyDdd::read(bytes)
    }

    fn as_text(&self) -> &[u8] {
        self.as_bytes()
    }
}

impl TextValue for Class {
    ghost use Rattle.terms.specs.Forms.{IsClass};

    ghost form = { IsClass };

    ghost text = { λ value. value };

    fn read(bytes: &[u8]) -> Option<Class> {
        Class::read(bytes)
    }

    fn as_text(&self) -> &[u8] {
        self.as_bytes()
    }
}

impl TextValue for HoldDate {
    ghost use Rattle.terms.specs.Forms.{IsDate};

    ghost form = { IsDate };

    ghost text = { λ value. value };

    fn read(bytes: &[u8]) -> Option<HoldDate> {
        HoldDate::read(bytes)
    }

    fn as_text(&self) -> &[u8] {
        self.as_bytes()
    }
}

impl Columns<'_> {
    /// A value, or none if the column is NULL.
    pub fn optional<T: TextValue>(&mut self) -> Result<Option<T>, ReadError>
        ensures read { IfOk result (λ value. (self.old ≡ or_null (λ v. Text (T.text v)) value ∷ self.new)
            × IfSome value (λ v. T.form (T.text v))) }
        ensures none { IsErrOf result ReadError.BadRow → (value : Option (List ℕ)) (rest : SqlRow)
            → IfSome value T.form → self.old ≢ or_null Text value ∷ rest }
        ensures fault { IsErrOf result ReadError.Fault → ⊥ }
    {
        let Some(text) = self.optional_text()? else {
            return Ok(None);
        };
        match T::read(text) {
            Some(value) => Ok(Some(value)),
            None => Err(ReadError::BadRow),
        }
    }
}

/// The value's text, or NULL.
pub fn text_or_null<T: TextValue>(value: &Option<T>) -> ValueRef<'_>
    ensures { owned result ≡ or_null (λ v. Text (T.text v)) value.now }
{
    match value {
        Some(value) => ValueRef::Text(value.as_text()),
        None => ValueRef::Null,
    }
}
