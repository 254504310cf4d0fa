//! A whole list of a zone.
ghost use Rattle.std.specs.Prelude.{◌≡◌, IfOk, IfErr, OnOk, None};
ghost use Rattle.intake_list.specs.Rows.{rows_in};
ghost use Rattle.intake_list.specs.Zones.{other_zone};
ghost use Rattle.intake_list.specs.Lists.{listed_in, list_of, IsRefusal};

use crate::cut::{ends_open, falls};
use crate::entry::{ListEntry, read_entries};
use crate::row::{ListRow, read_rows};
use crate::unread::unread_lines;
use crate::zone::other_zone;
use std::alloc::{AllocError, Global};
use std::marker::Model;
use terms::ZoneKind;
use thiserror::Error;

/// Why a text is not taken as the list of a zone.
#[derive(Clone, Copy, Debug, PartialEq, Eq, Error)]
pub enum ListError {
    #[error("out of memory")]
    Memory,
    /// The heading in this line names another zone. A list of several zones has such a heading too.
    #[error("line {line} is the heading of another zone: give the list of only this zone")]
    OtherZone { line: usize },
}

impl From<AllocError> for ListError {
    ghost use Rattle.std.specs.Prelude.{◌≡◌};
    ghost use Rattle.intake_list.specs.declared.list.ListError.TheVariants.{Memory};

    ghost from_gives = { λ _ e. e ≡ Memory };

    fn from(_e: AllocError) -> ListError {
        ListError::Memory
    }
}

/// The entries of a zone, the lines that reading leaves out, and the signs that the list may be cut off.
#[derive(Drop)]
pub struct ZoneList<'a> {
    pub entries: Vec<ListEntry<'a>>,
    /// The lines of the entries whose ids do not follow those above them.
    pub falls: Vec<usize>,
    /// The lines that reading leaves out.
    pub unread: Vec<usize>,
    /// The list ends within an entry.
    pub is_open: bool,
}

impl<'a> Model for ZoneList<'a> {
    ghost use Rattle.intake_list.specs.Lists as lists;

    ghost Value = { lists.ZoneList };

    ghost view = { λ l. record {
      entries = l.entries.items;
      falls = l.falls.items;
      unread = l.unread.items;
      is_open = l.is_open;
    } };
}

// The list that the lines are.
fn listed_in<'a>(alloc: Global, rows: &[ListRow<'a>]) -> Result<ZoneList<'a>, AllocError>
    ensures { IfOk result (λ list. list ≡ listed_in rows.now) }
{
    let entries = read_entries(alloc, rows)?;
    let found = falls(alloc, entries.as_slice())?;
    let left_out = unread_lines(alloc, rows)?;
    let is_open = ends_open(rows);
    Ok(ZoneList {
        entries,
        falls: found,
        unread: left_out,
        is_open,
    })
}

// Refuses lines with a heading of another zone.
fn refuse_other_zones(kind: ZoneKind, name: &[u8], rows: &[ListRow<'_>]) -> Result<(), ListError>
    ensures zone { OnOk result (other_zone kind name.now rows.now ≡ None) }
    ensures err { IfErr result (IsRefusal kind name.now rows.now) }
{
    match other_zone(kind, name, rows) {
        Some(row) => Err(ListError::OtherZone { line: row.number() }),
        None => Ok(()),
    }
}

/// Reads the text as the list of this zone. A text without headings may be of any zone. A list of another zone, or of
/// several zones, is refused.
pub fn read_list<'a>(
    alloc: Global,
    kind: ZoneKind,
    name: &[u8],
    text: &'a [u8],
) -> Result<ZoneList<'a>, ListError>
    ensures zone { OnOk result (other_zone kind name.now (rows_in text.now) ≡ None) }
    ensures list { IfOk result (λ list. list ≡ list_of text.now) }
    ensures err { IfErr result (IsRefusal kind name.now (rows_in text.now)) }
{
    let rows = read_rows(alloc, text)?;
    refuse_other_zones(kind, name, rows.as_slice())?;
    let list = listed_in(alloc, rows.as_slice())?;
    Ok(list)
}
