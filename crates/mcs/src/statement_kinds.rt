//! The words with which statements begin.
ghost use Rattle.std.specs.Prelude.{◌≡◌, ◌≢◌, ◌++◌, codes, IfSome, IfNone};
ghost use Rattle.terms.specs.declared.statement_words.StatementWord.{StatementWord as AnyWord};
ghost use Rattle.terms.specs.Statements.{statement_text};
ghost use Rattle.mcs.specs.KnownWords.{IsFixed};

use fields::spelling::{read_kind, read_type};
use terms::StatementWord;

// The word, other than those of SYSMOD kinds and element types, that has this spelling after `++`.
fn fixed_word(rest: &[u8]) -> Option<StatementWord>
    ensures found { IfSome result (λ w. statement_text w ≡ codes "++" ++ rest.now) }
    ensures none { IfNone result ((w : AnyWord) → IsFixed w → statement_text w ≢ codes "++" ++ rest.now) }
{
    match rest {
        b"VER" => Some(StatementWord::Ver),
        b"IF" => Some(StatementWord::If),
        b"HOLD" => Some(StatementWord::Hold),
        b"RELEASE" => Some(StatementWord::Release),
        b"ASSIGN" => Some(StatementWord::Assign),
        b"MACUPD" => Some(StatementWord::UpdateMac),
        b"SRCUPD" => Some(StatementWord::UpdateSrc),
        _ => None,
    }
}

/// The word of a statement that has this spelling.
pub fn statement_word(word: &[u8]) -> Option<StatementWord>
    ensures found { IfSome result (λ w. statement_text w ≡ word.now) }
    ensures none { IfNone result ((w : AnyWord) → statement_text w ≢ word.now) }
{
    let rest = word.strip_prefix(b"++")?;
    if let Some(fixed) = fixed_word(rest) {
        return Some(fixed);
    }
    if let Some(kind) = read_kind(rest) {
        return Some(StatementWord::Header(kind));
    }
    if let Some(elem_type) = read_type(rest) {
        return Some(StatementWord::Replace(elem_type));
    }
    None
}
