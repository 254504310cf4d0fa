//! A shop's file as cards, whatever its lines and its code are: 80 columns of ASCII each, and what was assumed. Also
//! the words of cards, cards as they are printed, and the remarks on a statement that is not carried exactly as it is
//! on its cards. Every call that allocates fails with `AllocError` if memory runs out.
#![tactic(auto)]

mod card;
mod code;
mod comment;
mod errors;
mod guess;
mod line;
mod place;
mod printed;
mod read;
mod reason;
mod remark;
mod remark_list;
mod remarks;
mod tables;
mod words;

pub use card::{Card, Tail, is_printable_byte};
pub use code::{Code, Layout};
pub use comment::lay_out_comment;
pub use errors::CardError;
pub use line::NO_LATIN;
pub use place::CardPlace;
pub use printed::PrintedCards;
pub use read::{CardNote, CardNoteReason, CardReader, Cards, read_cards};
pub use reason::RemarkReason;
pub use remark::{Deed, Remark};
pub use remark_list::RemarkList;
pub use remarks::{Remarks, StandIn, Subject};
pub use words::{CardPiece, CardScanner, Open, Token, is_word_byte};
