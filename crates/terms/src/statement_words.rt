//! The words with which statements begin.
ghost use Rattle.std.specs.Prelude.{◌≡◌, ◌↔◌, Some, IsSome, IfSome};
ghost use Rattle.terms.specs.Texts.{TakesUpdates};
ghost use Rattle.terms.specs.Statements.{changed_type};
ghost use Rattle.terms.specs.Ptfin.{IsUpdateWord};

use crate::kinds::{ElemType, Kind};

/// The word of a statement: a header, `++VER`, `++IF`, `++HOLD`, `++RELEASE`, `++ASSIGN`, the replacement of an
/// element, or an update of a macro or a source.
#[derive(Clone, Copy, Debug)]
pub enum StatementWord {
    Header(Kind),
    Ver,
    If,
    Hold,
    Release,
    Assign,
    Replace(ElemType),
    UpdateMac,
    UpdateSrc,
}

impl ElemType {
    /// The word of an update of an element of this type.
    pub fn update_word(self) -> Option<StatementWord>
        ensures some { IsSome result ↔ TakesUpdates self }
        ensures word { IfSome result (λ w. (changed_type w ≡ Some self) × IsUpdateWord w) }
    {
        match self {
            ElemType::Mac => Some(StatementWord::UpdateMac),
            ElemType::Src => Some(StatementWord::UpdateSrc),
            ElemType::Clist | ElemType::Data | ElemType::Exec | ElemType::Parm | ElemType::Proc => {
                None
            }
        }
    }
}
