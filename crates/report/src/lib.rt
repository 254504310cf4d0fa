//! Reports: what commands print, as values and as bytes, and the sinks that take these. An `Outcome` is a command's
//! lines before they become text. Writing it hands the sink its text, or a beginning of it if the sink fails, and
//! returns the highest code of the lines. That takes no memory from the heap: pieces of lines wait on a page of fixed
//! size, and LIST's lines are made from the zone to which its outcome refers. The crate also finds what REPORT
//! ERRSYSMODS prints: the ERROR holds that a zone leaves open, each with the received SYSMODs that resolve it. And it
//! has what the lines about one id are made of: the facts about it as values (`Fact`), and the words of a line
//! (`LineWord`), which `append_words` appends to a text. Every call that allocates returns `AllocError` if memory runs
//! out.
#![tactic(auto)]

mod error_holds;
mod fact;
mod global_lines;
mod held_for_error;
mod line_words;
mod lines;
mod optional_texts;
mod outcome;
mod page;
mod pieces;
mod places;
mod sink;
mod superseders;
mod write;
mod zone_lines;

pub use fact::{
    ChangedElement, ElementLevel, Fact, Maker, NumberedVer, Relation, Requisite, Resolution,
    Standing,
};
pub use held_for_error::errsysmods;
pub use judge_system::{Failure, OpenNeed, TestSet, Tests};
pub use line_words::{
    ELEM_TYPE_WIDTH, HOLD_WIDTH, LineWord, NAME_WIDTH, TYPE_WIDTH, append_words, applied_word,
};
pub use lines::status_word;
pub use optional_texts::{class_or_dash, date_or_dash, id_or_dash};
pub use outcome::{Header, Outcome, Place, Refusal, ReportLine, Status};
pub use pieces::{print, write_all};
pub use places::place_of;
pub use sink::{Out, Sink, WriteFault};
pub use superseders::serving_ids;
pub use terms::{CommandCode, CommandWord, IdRefusal, StatementCode, Test};
pub use write::{line_code, write_report};
pub use zone_lines::entry_words;
