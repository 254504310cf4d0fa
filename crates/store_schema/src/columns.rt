//! A row, column by column.

ghost use Rattle.std.specs.Prelude.{◌≡◌, ◌≢◌, ◌∷◌, [], ℕ, ℤ, List, Option, IfOk, IfSome, IfNone, IsErrOf};
ghost use Rattle.std.specs.Option.{option_copied};
ghost use Rattle.sqlite.specs.Order.{Row as SqlRow};
ghost use Rattle.sqlite.specs.declared.types.Value.TheVariants.{Int, Text, Blob};
ghost use Rattle.sqlite.specs.Values.{or_null};
ghost use Rattle.sqlite_value.specs.Value.{owned};

use sqlite::Row;
use sqlite_value::value::ValueRef;
use std::marker::Model;
use store_rows::ReadError;

/// The columns of a row that are still to be read. A call reads the next one, and returns `BadRow` if there is none or
/// if it has no value of that form.
#[derive(Drop)]
pub struct Columns<'a> {
    row: &'a Row,
    at: usize,
}

impl<'a> Model for Columns<'a> {
    ghost use Rattle.std.specs.Prelude.{List, length, drop, ◌≤◌};
    ghost use Rattle.sqlite.specs.declared.types.Value.{Value as SqlValue};

    ghost Value = { List SqlValue };

    ghost view = { λ c. drop c.at c.row.now };

    ghost invariant = { λ c. c.at ≤ length c.row.now };
}

impl<'a> Columns<'a> {
    /// All columns of the row.
    pub fn new(row: &'a Row) -> Columns<'a>
        ensures { result ≡ row.now }
    {
        Columns { row, at: 0 }
    }

    /// Returns `BadRow` if a column is left, so that a row with too many is refused.
    pub fn expect_end(&self) -> Result<(), ReadError>
        ensures read { IfOk result (λ _. self.now ≡ []) }
        ensures none { IsErrOf result ReadError.BadRow → self.now ≢ [] }
        ensures fault { IsErrOf result ReadError.Fault → ⊥ }
    {
        if self.at != self.row.column_count() {
            return Err(ReadError::BadRow);
        }
        Ok(())
    }

    // The value of the next column, or none if no column is left.
    fn next_value(&mut self) -> Option<ValueRef<'a>>
        ensures some { IfSome result (λ value. self.old ≡ owned value ∷ self.new) }
        ensures none { IfNone result (self.old ≡ []) }
    {
        if self.at == self.row.column_count() {
            return None;
        }
        let value = self.row.get_ref(self.at).ok()?;
        self.at += 1;
        Some(value)
    }

    /// The bytes of a text.
    pub fn text(&mut self) -> Result<&'a [u8], ReadError>
        ensures read { IfOk result (λ t. self.old ≡ Text t.now ∷ self.new) }
        ensures none { IsErrOf result ReadError.BadRow → (t : List ℕ) (rest : SqlRow) → self.old ≢ Text t ∷ rest }
        ensures fault { IsErrOf result ReadError.Fault → ⊥ }
    {
        match self.next_value() {
            Some(ValueRef::Text(text)) => Ok(text),
            _ => Err(ReadError::BadRow),
        }
    }

    /// A text, or none if the column is NULL.
    pub fn optional_text(&mut self) -> Result<Option<&'a [u8]>, ReadError>
        ensures read { IfOk result (λ t. self.old ≡ or_null Text (option_copied t) ∷ self.new) }
        ensures none { IsErrOf result ReadError.BadRow → (t : Option (List ℕ)) (rest : SqlRow)
            → self.old ≢ or_null Text t ∷ rest }
        ensures fault { IsErrOf result ReadError.Fault → ⊥ }
    {
        match self.next_value() {
            Some(ValueRef::Text(text)) => Ok(Some(text)),
            Some(ValueRef::Null) => Ok(None),
            _ => Err(ReadError::BadRow),
        }
    }

    /// An integer, which may be negative.
    pub fn integer(&mut self) -> Result<i64, ReadError>
        ensures read { IfOk result (λ n. self.old ≡ Int n ∷ self.new) }
        ensures none { IsErrOf result ReadError.BadRow → (n : ℤ) (rest : SqlRow) → self.old ≢ Int n ∷ rest }
        ensures fault { IsErrOf result ReadError.Fault → ⊥ }
    {
        match self.next_value() {
            Some(ValueRef::Int(number)) => Ok(number),
            _ => Err(ReadError::BadRow),
        }
    }

    /// The bytes of a blob.
    pub fn blob(&mut self) -> Result<&'a [u8], ReadError>
        ensures read { IfOk result (λ b. self.old ≡ Blob b.now ∷ self.new) }
        ensures none { IsErrOf result ReadError.BadRow → (b : List ℕ) (rest : SqlRow) → self.old ≢ Blob b ∷ rest }
        ensures fault { IsErrOf result ReadError.Fault → ⊥ }
    {
        match self.next_value() {
            Some(ValueRef::Blob(bytes)) => Ok(bytes),
            _ => Err(ReadError::BadRow),
        }
    }
}
