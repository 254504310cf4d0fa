//! What the definitions say about an APPLY or ACCEPT of given ids.
ghost use Rattle.machine_laws.specs.AnyDate.{PrintsTheSame};
ghost use Rattle.machine_laws.specs.Clear.{ClearIsApplied};

/// If the facts of an id are clear, an APPLY that selects it alone, without BYPASS, applies it.
pub fn clear_is_applied()
    ensures { ClearIsApplied }
{}

/// An APPLY or ACCEPT of given ids prints the same lines on any date.
pub fn prints_same_on_any_date()
    ensures { PrintsTheSame }
{}
