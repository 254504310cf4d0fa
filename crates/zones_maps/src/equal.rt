//! Whether two entries or two elements are equal in each field.
ghost use Rattle.std.specs.Prelude.{◌≡◌, ◌↔◌, IsTrue, Some, option_copied};

use crate::entries::{Element, Entry};
use fields::IdList;

/// Whether two entries are equal in each field.
pub fn are_same_entries(a: &Entry, b: &Entry) -> bool
    ensures { IsTrue result ↔ (a.now ≡ b.now) }
{
    a.id == b.id
        && a.applied == b.applied
        && have_same_ids(&a.supby, &b.supby)
        && a.delby == b.delby
        && have_same_ids(&a.waived, &b.waived)
}

// Whether both lists have the same ids.
fn have_same_ids(a: &IdList, b: &IdList) -> bool
    ensures { IsTrue result ↔ (a.now ≡ b.now) }
{
    a.as_slice() == b.as_slice()
}

/// Whether both elements exist and are the same, or neither exists.
pub fn are_same_elements(a: Option<&Element>, b: Option<&Element>) -> bool
    ensures { IsTrue result ↔ (option_copied a.entry ≡ option_copied b.entry) }
{
    match a {
        Some(element) => is_same_as_existing(element, b),
        None => b.is_none(),
    }
}

/// Whether the element `b` exists and is the same as `a`.
pub fn is_same_as_existing(a: &Element, b: Option<&Element>) -> bool
    ensures { IsTrue result ↔ (Some a.now ≡ option_copied b.entry) }
{
    match b {
        Some(element) => have_equal_fields(a, element),
        None => false,
    }
}

// Whether two elements are equal in each field.
fn have_equal_fields(a: &Element, b: &Element) -> bool
    ensures { IsTrue result ↔ (a.now ≡ b.now) }
{
    a.elem_type == b.elem_type
        && a.name == b.name
        && a.fmid == b.fmid
        && a.rmid == b.rmid
        && have_same_ids(&a.umids, &b.umids)
        && a.distlib == b.distlib
        && a.syslib == b.syslib
        && have_same_text(a, b)
}

// Whether both have the same records.
fn have_same_text(a: &Element, b: &Element) -> bool
    ensures { IsTrue result ↔ (a.now.text ≡ b.now.text) }
{
    a.text.as_slice() == b.text.as_slice()
}
