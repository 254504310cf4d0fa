//! A job under way: what it has in memory, and the commands that need no decision of the service. `begin` makes it from
//! the tables. SET, RECEIVE, REJECT, LIST and REPORT lead to the machine's state with the machine's outcome, and so
//! does `carry_out`, given the change that an APPLY, ACCEPT or RESTORE has decided on. The tables stand for that state,
//! also after a crash. The outcome of a LIST is `list`'s, which copies nothing. If memory runs out or the store fails,
//! the tables stand for the old state, and a crash leaves that one or the one to which the command leads. A fault has a
//! cause. No contract says when memory runs out. Whatever the tables hold, a command has loaded, or made one change of
//! its own besides (`uses`). SET, LIST, REPORT, a command with CHECK and one that is refused write nothing, nor does a
//! call that returns `NoState`. After an error no command of the job may follow: the session's global zone may be ahead
//! of the tables.
#![tactic(auto)]

mod boundary;
mod carry_out;
mod commit;
mod errsysmods;
mod files;
mod lines;
mod list;
mod receive;
mod receive_files;
mod reject;
mod related;
mod session;
mod set;

pub use boundary::BoundaryZone;
pub use carry_out::ZoneChange;
pub use files::Files;
pub use lines::lines_or_nothing;
pub use session::{Performed, Session};
