//! What the definitions say about the next open, and about jobs over a new database.
ghost use Rattle.smpe_jobs.specs.FromEmpty.{EndsClosed};
ghost use Rattle.smpe_jobs.specs.Reopened.{NextOpenFinds};

use sqlite::Alter;

/// After jobs that ended early, an open of what is left finds the state of the commands that were reported, or that of
/// one command more, even if a fault shut the connection.
pub fn next_open_finds<S: Alter, T: Alter>()
    ensures { NextOpenFinds S.Store T.Store }
{}

/// Whatever jobs are run over a store that was opened in a database without tables, all zones are closed afterwards,
/// also after an error and a crash.
pub fn ends_closed<S: Alter>()
    ensures { EndsClosed S.Store }
{}
