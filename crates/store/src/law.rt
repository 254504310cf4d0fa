//! What the definitions say about an open.
ghost use Rattle.store.specs.Reopened.{FindsAgain};

use sqlite::Alter;

/// A connection that shows what the store last committed finds the inventory for which it stood. `sqlite` promises that
/// an open of the files that a close returned shows it.
pub fn found_again<S: Alter, T: Alter>()
    ensures { FindsAgain S.Store T.Store }
{}
