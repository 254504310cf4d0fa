//! Where the facts of an id are looked up.
ghost use Rattle.std.specs.Prelude.{◌≡◌, filter};
ghost use Rattle.terms.specs.Lookups.{IsZone, is_function, applied_ids};
ghost use Rattle.terms.specs.Tests.{view_of};
ghost use Rattle.zones.specs.Gone.{left_of};
ghost use Rattle.zones.specs.Scopes.{global_of, setting_of};
ghost use Rattle.report.specs.Facts.{left_by};

use fields::Id;
use zones::{Scope, ZoneLess};

/// The id in question, and where its facts are looked up.
#[derive(Clone, Copy)]
pub(crate) struct Asking<'a, 'b> {
    /// What an install of the id alone looks at.
    pub(crate) scope: Scope<'a, 'b>,
    pub(crate) id: Id,
    /// The id's view of the zone.
    pub(crate) seen: ZoneLess<'a, 'b>,
    /// The zone less what the id's own DELETE takes out.
    pub(crate) left: ZoneLess<'a, 'b>,
    /// The ids that are applied in the zone.
    pub(crate) applied: &'a [Id],
    /// The functions among them.
    pub(crate) functions: &'a [Id],
    pub ghost zone_is: { IsZone scope.zone.now },
    pub ghost srel_is: { scope.vers.now.srel ≡ scope.zone.now.srel },
    pub ghost seen_is: { left_of seen ≡ view_of (setting_of scope) id },
    pub ghost left_is: { left_of left ≡ left_by (setting_of scope) id },
    pub ghost applied_is: { applied.now ≡ applied_ids scope.zone.now },
    pub ghost functions_is: { functions.now ≡ filter (is_function (global_of scope)) applied.now },
}
