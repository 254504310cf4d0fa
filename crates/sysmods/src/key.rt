//! The keys of holds.
ghost use Rattle.std.specs.Prelude.{◌≡◌, Some, refl};
ghost use Rattle.std.specs.Cmp.{partial_order_from_total, eq_by_cmp_equiv, partial_equiv_from_equiv};
ghost use Rattle.std.specs.Ordering.{as_partial_cmp, eq_by_cmp};

use fields::{Id, Reason};
use std::cmp::Ordering;
use sysmods_values::Hold;
use terms::HoldKind;

/// A place among the holds of one id and kind: that of a reason, or one of the two ends, which bound a range and are
/// the place of no hold.
#[derive(Clone, Copy, Debug, PartialEq, Eq, PartialOrd, Ord)]
pub(crate) enum HoldPlace {
    First,
    At(Reason),
    Last,
}

/// The id, the kind and the place of a hold. Holds rise by these, in this order.
#[derive(Clone, Copy, Debug)]
pub(crate) struct HoldKey {
    pub id: Id,
    pub kind: HoldKind,
    pub place: HoldPlace,
}

impl HoldKey {
    /// The key of the hold of this reason.
    pub(crate) fn new(id: Id, kind: HoldKind, reason: Reason) -> HoldKey
        ensures { result ≡ record { id = id; kind = kind; place = HoldPlace.At reason } }
    {
        HoldKey {
            id,
            kind,
            place: HoldPlace::At(reason),
        }
    }

    /// The key of the hold.
    pub(crate) fn of_hold(hold: &Hold) -> HoldKey
        ensures { result ≡ record { id = hold.now.id; kind = hold.now.kind; place = HoldPlace.At hold.now.reason } }
    {
        HoldKey::new(hold.id, hold.kind, hold.reason)
    }
}

impl PartialEq for HoldKey {
    ghost use Rattle.sysmods.specs.Keys.{key_cmp, key_cmp_total};

    ghost eq = { eq_by_cmp key_cmp };

    ghost laws = { partial_equiv_from_equiv (eq_by_cmp_equiv key_cmp_total) };

    fn eq(&self, other: &HoldKey) -> bool {
        self.cmp(other).is_eq()
    }
}

impl Eq for HoldKey {
    ghost use Rattle.sysmods.specs.Keys.{key_cmp, key_cmp_total};

    ghost laws = { eq_by_cmp_equiv key_cmp_total };
}

impl PartialOrd for HoldKey {
    ghost use Rattle.sysmods.specs.Keys.{key_cmp, key_cmp_total};

    ghost partial_cmp = { as_partial_cmp key_cmp };

    ghost laws = { partial_order_from_total key_cmp_total };

    fn partial_cmp(&self, other: &HoldKey) -> Option<Ordering> {
        Some(self.cmp(other))
    }
}

impl Ord for HoldKey {
    ghost use Rattle.sysmods.specs.Keys.{key_cmp, key_cmp_total};

    ghost cmp = { key_cmp };

    ghost total = { key_cmp_total };

    ghost matches_partial_cmp = { λ x y. refl };

    ghost matches_eq = { λ x y. refl };

    fn cmp(&self, other: &HoldKey) -> Ordering {
        self.id
            .cmp(&other.id)
            .then(self.kind.cmp(&other.kind))
            .then(self.place.cmp(&other.place))
    }
}
