//! What the definitions say about summaries.
ghost use Rattle.smpe_summary.specs.Laws.{EachHasOneGroup};

/// The groups of a summary are a partition of the package: each of its ids is in exactly one group, and no other id is
/// in any.
pub fn each_has_one_group()
    ensures { EachHasOneGroup }
{}
