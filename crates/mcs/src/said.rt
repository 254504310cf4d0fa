//! What one statement of a PTFIN says.
use crate::file::Assign;
use fields::Id;
use sysmods_values::{ElemChange, Hold, IfReq, Ver};
use terms::Kind;

/// What one statement says. A `++VER` is without its `++IF`s here.
#[derive(Drop)]
pub enum Statement {
    Header(Kind, Id),
    Ver(Ver),
    If(IfReq),
    Hold(Hold),
    Assign(Assign),
    Change(ElemChange),
}
