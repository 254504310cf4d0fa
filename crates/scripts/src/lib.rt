//! Scripts of tests, as text. A script has cases, a case has steps, and a step says what it must print. `play` hands
//! the steps to what performs them, and compares. The marks stand at the beginning of a line:
//! `* ` begins a case, with what it shows, `> ` a step, with what is done, and `= ` a part of a step, by its name. The
//! lines below a step's first line and the part `= PRINTS` are its cards and what it prints; what other parts are, the
//! performer says. The lines above the first case explain the script. A line of cards is a record of 80 bytes, in which
//! a tab leads to column 73.
#![tactic(auto)]

mod cards;
mod compared;
mod playing;
mod step;

pub use cards::{append_cards, card_file};
pub use compared::{Difference, compare, first_difference};
pub use playing::{Performs, Played, play, play_input};
pub use step::{ScriptStep, split_at_first};
