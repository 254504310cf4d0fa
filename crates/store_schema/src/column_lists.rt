//! Lists of ids and of records, as columns and as values.

ghost use Rattle.std.specs.Prelude.{◌≡◌, ◌≢◌, ◌==◌, ◌∷◌, ℕ, List, map, IfOk, IsErrOf};
ghost use Rattle.std.specs.List.{concat, join_with_byte};
ghost use Rattle.store_schema.specs.Parts.{parts_of};
ghost use Rattle.sqlite.specs.Order.{Row as SqlRow};
ghost use Rattle.store_schema.specs.Forms.{AreSorted, AreRecords};
ghost use Rattle.store_schema.specs.Rows.{joined, records};
ghost use Rattle.terms.specs.Forms.{IsId, IsSource};

use crate::columns::Columns;
use fields::{Id, IdList, Source, SourceList};
use std::alloc::{AllocError, Global};
use store_rows::ReadError;
use text80::{Line, RECORD, lines_of};

/// The ids, joined by commas.
pub fn joined_ids(alloc: Global, ids: &[Id]) -> Result<Vec<u8>, AllocError>
    ensures { IfOk result (λ text. text.items ≡ join_with_byte 44 ids.now) }
{
    let mut text = Vec::new(alloc);
    let Some((first, rest)) = ids.split_first() else {
        return Ok(text);
    };
    text.extend_from_slice(first.as_bytes())?;
    for id in rest {
        text.push(b',')?;
        text.extend_from_slice(id.as_bytes())?;
    }
    Ok(text)
}

// The parts of the text between its commas. The empty text has none.
fn split_at_commas(alloc: Global, text: &[u8]) -> Result<Vec<&[u8]>, AllocError>
    ensures { IfOk result (λ parts. map (λ part. part.now) parts.items ≡ parts_of text.now) }
{
    if text.is_empty() {
        return Ok(Vec::new(alloc));
    }
    text.split(|b| *b == b',').collect(alloc)
}

// The ids of these texts. Returns `BadRow` if one of them is no id, or if they do not rise.
fn read_ids(alloc: Global, parts: &[&[u8]]) -> Result<IdList, ReadError>
    ensures some { IfOk result (λ list. (list ≡ map (λ part. part.now) parts.now) × AreSorted IsId list) }
    ensures none { IsErrOf result ReadError.BadRow → ¬ AreSorted IsId (map (λ part. part.now) parts.now) }
    ensures fault { IsErrOf result ReadError.Fault → ⊥ }
{
    let mut list = IdList::new(alloc);
    for part in parts {
        let Some(id) = Id::read(part) else {
            return Err(ReadError::BadRow);
        };
        if !list.push_last(id)? {
            return Err(ReadError::BadRow);
        }
    }
    Ok(list)
}

// The sources of these texts. Returns `BadRow` if one of them is no source, or if they do not rise.
fn read_sources(alloc: Global, parts: &[&[u8]]) -> Result<SourceList, ReadError>
    ensures some { IfOk result (λ list. (list ≡ map (λ part. part.now) parts.now) × AreSorted IsSource list) }
    ensures none { IsErrOf result ReadError.BadRow → ¬ AreSorted IsSource (map (λ part. part.now) parts.now) }
    ensures fault { IsErrOf result ReadError.Fault → ⊥ }
{
    let mut list = SourceList::new(alloc);
    for part in parts {
        let Some(source) = Source::read(part) else {
            return Err(ReadError::BadRow);
        };
        if !list.push_last(source)? {
            return Err(ReadError::BadRow);
        }
    }
    Ok(list)
}

// The ids of a rising list that commas join.
fn read_joined_ids(alloc: Global, text: &[u8]) -> Result<IdList, ReadError>
    ensures read { IfOk result (λ list. (text.now ≡ join_with_byte 44 list) × AreSorted IsId list) }
    ensures none { IsErrOf result ReadError.BadRow → (list : List (List ℕ)) → AreSorted IsId list
        → text.now ≢ join_with_byte 44 list }
    ensures fault { IsErrOf result ReadError.Fault → ⊥ }
{
    let parts = split_at_commas(alloc, text)?;
    read_ids(alloc, &parts)
}

// The sources of a rising list that commas join.
fn read_joined_sources(alloc: Global, text: &[u8]) -> Result<SourceList, ReadError>
    ensures read { IfOk result (λ list. (text.now ≡ join_with_byte 44 list) × AreSorted IsSource list) }
    ensures none { IsErrOf result ReadError.BadRow → (list : List (List ℕ)) → AreSorted IsSource list
        → text.now ≢ join_with_byte 44 list }
    ensures fault { IsErrOf result ReadError.Fault → ⊥ }
{
    let parts = split_at_commas(alloc, text)?;
    read_sources(alloc, &parts)
}

// The records of the bytes. Returns `BadRow` if the last one is not whole.
fn read_records(alloc: Global, bytes: &[u8]) -> Result<Vec<Line>, ReadError>
    ensures some { IfOk result (λ lines. (bytes.now ≡ concat lines.items) × AreRecords lines.items) }
    ensures none { IsErrOf result ReadError.BadRow → (lines : List (List ℕ)) → AreRecords lines
        → bytes.now ≢ concat lines }
    ensures fault { IsErrOf result ReadError.Fault → ⊥ }
{
    if bytes.len() % RECORD != 0 {
        return Err(ReadError::BadRow);
    }
    Ok(lines_of(alloc, bytes)?)
}

impl Columns<'_> {
    /// A rising list of ids.
    pub fn ids(&mut self, alloc: Global) -> Result<IdList, ReadError>
        ensures read { IfOk result (λ list. (self.old ≡ joined list ∷ self.new) × AreSorted IsId list) }
        ensures none { IsErrOf result ReadError.BadRow → (list : List (List ℕ)) (rest : SqlRow) → AreSorted IsId list
            → self.old ≢ joined list ∷ rest }
        ensures fault { IsErrOf result ReadError.Fault → ⊥ }
    {
        read_joined_ids(alloc, self.text()?)
    }

    /// A rising list of sources.
    pub fn sources(&mut self, alloc: Global) -> Result<SourceList, ReadError>
        ensures read { IfOk result (λ list. (self.old ≡ joined list ∷ self.new) × AreSorted IsSource list) }
        ensures none { IsErrOf result ReadError.BadRow → (list : List (List ℕ)) (rest : SqlRow)
            → AreSorted IsSource list → self.old ≢ joined list ∷ rest }
        ensures fault { IsErrOf result ReadError.Fault → ⊥ }
    {
        read_joined_sources(alloc, self.text()?)
    }

    /// The records of a text, one after the other in a blob.
    pub fn records(&mut self, alloc: Global) -> Result<Vec<Line>, ReadError>
        ensures read { IfOk result (λ lines. (self.old ≡ records lines.items ∷ self.new) × AreRecords lines.items) }
        ensures none { IsErrOf result ReadError.BadRow → (lines : List (List ℕ)) (rest : SqlRow) → AreRecords lines
            → self.old ≢ records lines ∷ rest }
        ensures fault { IsErrOf result ReadError.Fault → ⊥ }
    {
        read_records(alloc, self.blob()?)
    }
}
