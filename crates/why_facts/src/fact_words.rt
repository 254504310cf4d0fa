//! How single values of facts are spelled.
ghost use Rattle.std.specs.Prelude.{◌≡◌};
ghost use Rattle.why_facts.specs.FactText.{type_word, standing_word, answer_word, relation_word};
ghost use Rattle.report.specs.FactViews.{standing_view, resolution_view, relation_view};

use fields::spelling::kind_text;
use report::{Relation, Resolution, Standing, applied_word};
use terms::Kind;

/// The type of a SYSMOD, or `-` for an id that is not received.
pub(crate) fn kind_or_dash(kind: Option<Kind>) -> &'static [u8]
    ensures { result.now ≡ type_word kind }
{
    match kind {
        Some(kind) => kind_text(kind),
        None => b"-",
    }
}

/// The word for the state of an id.
pub(crate) fn standing_word(standing: Standing) -> &'static [u8]
    ensures { result.now ≡ standing_word (standing_view standing) }
{
    match standing {
        Standing::Applied(kind) => applied_word(kind),
        Standing::Superseded => b"SUPERSEDED",
        Standing::Deleted => b"DELETED",
        Standing::Received => b"RECEIVED",
        Standing::Missing => b"MISSING",
    }
}

/// The word for how a requisite is resolved.
pub(crate) fn resolution_word(resolution: &Resolution) -> &'static [u8]
    ensures { result.now ≡ answer_word (resolution_view resolution.now) }
{
    match resolution {
        Resolution::Supplied(_) => b"SUPPLIED",
        Resolution::Waived => b"WAIVED",
        Resolution::ByItself => b"ITSELF",
        Resolution::Open(_) => b"OPEN",
    }
}

/// The word for how the id is related to a SYSMOD that made an element.
pub(crate) fn relation_word(relation: Relation) -> &'static [u8]
    ensures { result.now ≡ relation_word (relation_view relation) }
{
    match relation {
        Relation::Itself => b"ITSELF",
        Relation::Over => b"OVER",
        Relation::NotOver => b"NOTOVER",
    }
}
