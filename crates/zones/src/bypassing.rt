//! Whether BYPASS covers a hold.
ghost use Rattle.std.specs.Prelude.{◌≡◌, false};
ghost use Rattle.std.specs.Option.{option_map_or};
ghost use Rattle.terms.specs.Lookups.{is_in};
ghost use Rattle.terms.specs.Tests.{covers, reasons_of, is_bypassed_hold};
ghost use Rattle.fields.specs.Choices.{reasons_in};

use fields::{Bypass, Class, Reason, Reasons};
use sysmods_values::Hold;
use terms::HoldKind;

// What BYPASS says about holds of this kind: its HOLDERROR, HOLDSYSTEM or HOLDUSER.
fn reasons_of(bypass: &Bypass, kind: HoldKind) -> &Reasons
    ensures { reasons_in result.now ≡ reasons_of bypass.now kind }
{
    match kind {
        HoldKind::Error => &bypass.holderror,
        HoldKind::System => &bypass.holdsystem,
        HoldKind::User => &bypass.holduser,
    }
}

// Whether the reason ID is one of these.
fn covers_reason(reasons: &Reasons, reason: Reason) -> bool
    ensures { result ≡ covers (reasons_in reasons.now) reason }
{
    match reasons {
        Reasons::None => false,
        Reasons::Any => true,
        Reasons::These(list) => list.contains(reason),
    }
}

// Whether HOLDCLASS has the class.
fn covers_class(bypass: &Bypass, class: Option<Class>) -> bool
    ensures { result ≡ option_map_or (is_in bypass.now.holdclass) class false }
{
    match class {
        Some(class) => bypass.holdclass.contains(class),
        None => false,
    }
}

/// Whether BYPASS covers the hold, by its reason or by its class.
pub fn is_bypassed_hold(bypass: &Bypass, hold: &Hold) -> bool
    ensures { result ≡ is_bypassed_hold bypass.now hold.now }
{
    covers_reason(reasons_of(bypass, hold.kind), hold.reason) || covers_class(bypass, hold.class)
}
