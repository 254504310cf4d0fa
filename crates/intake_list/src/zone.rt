//! The zone that a list is of, as the headings of its pages name it.
ghost use Rattle.std.specs.Prelude.{◌≡◌};
ghost use Rattle.std.specs.Option.{option_copied};
ghost use Rattle.intake_list.specs.Zones.{
  is_page_form,
  is_kind_word,
  names_zone,
  is_of_other_zone,
  first_heading,
  other_zone,
};

use crate::list_words::word_at;
use crate::row::{ListRow, RowForm};
use terms::ZoneKind;

// Whether headings name the kind by the word.
fn is_kind_word(kind: ZoneKind, word: &[u8]) -> bool
    ensures { result ≡ is_kind_word kind word.now }
{
    match kind {
        ZoneKind::Target => word == b"TARGET".as_slice(),
        ZoneKind::Distribution => {
            word == b"DLIB".as_slice() || word == b"DISTRIBUTION".as_slice()
        }
    }
}

// Whether the line is the heading of a page.
fn is_heading(row: &ListRow<'_>) -> bool
    ensures { result ≡ is_page_form row.now.form }
{
    matches!(row.form(), RowForm::Page)
}

/// Whether the heading names the zone.
pub fn names_zone(kind: ZoneKind, name: &[u8], row: &ListRow<'_>) -> bool
    ensures { result ≡ names_zone kind name.now row.now }
{
    let words = row.values();
    is_kind_word(kind, word_at(words, 6)) && word_at(words, 8) == name
}

// Whether the line is the heading of a page of another zone.
fn is_of_other_zone(kind: ZoneKind, name: &[u8], row: &ListRow<'_>) -> bool
    ensures { result ≡ is_of_other_zone kind name.now row.now }
{
    is_heading(row) && !names_zone(kind, name, row)
}

/// The first heading of a page, if there is one. It names the zone.
pub fn first_heading<'r, 'a>(rows: &'r [ListRow<'a>]) -> Option<&'r ListRow<'a>>
    ensures { option_copied result ≡ first_heading rows.now }
{
    rows.iter().find(|row| is_heading(*row))
}

/// The first heading of another zone. A list that has one is refused.
pub fn other_zone<'r, 'a>(
    kind: ZoneKind,
    name: &[u8],
    rows: &'r [ListRow<'a>],
) -> Option<&'r ListRow<'a>>
    ensures { option_copied result ≡ other_zone kind name.now rows.now }
{
    rows.iter().find(|row| is_of_other_zone(kind, name, *row))
}
