//! The text of facts.
ghost use Rattle.std.specs.Prelude.{◌≡◌, ◌++◌, map, OnOk};
ghost use Rattle.why_facts.specs.FactText.{fact_text, facts_text as text_of, fact_code, facts_code as code_of};
ghost use Rattle.report.specs.FactViews.{ver_view, fact_view};

use crate::asked_lines::{append_hold, append_requisite};
use crate::element_lines::append_element;
use crate::fact_words::{kind_or_dash, standing_word};
use report::{
    Fact, LineWord, NumberedVer, Standing, TYPE_WIDTH, append_words, entry_words, id_or_dash,
};
use std::alloc::AllocError;

// Appends the line of a `++VER`.
fn append_ver(ver: &NumberedVer, text: &mut Vec<u8>) -> Result<(), AllocError>
    ensures { OnOk result (text.new.items ≡ text.old.items ++ fact_text (ver_view ver.now)) }
{
    let words = [
        LineWord::Number(ver.number),
        LineWord::Text(b"FMID"),
        LineWord::Text(id_or_dash(&ver.fmid)),
        LineWord::If(ver.fits, b"FITS", b"-"),
        LineWord::If(ver.counts, b"COUNTS", b"-"),
    ];
    append_words(b"  VER", &words, text)
}

// Appends the lines of one fact.
fn append_fact(fact: &Fact<'_>, text: &mut Vec<u8>) -> Result<(), AllocError>
    ensures { OnOk result (text.new.items ≡ text.old.items ++ fact_text (fact_view fact.now)) }
{
    match fact {
        Fact::Standing { id, kind, standing } => {
            let kind = LineWord::Left(TYPE_WIDTH, kind_or_dash(*kind));
            let standing = LineWord::Text(standing_word(*standing));
            append_words(id.as_bytes(), &[kind, standing], text)
        }
        Fact::Superseder(id) => {
            let received = LineWord::Text(b"RECEIVED");
            append_words(b"  SUPBY", &[LineWord::Text(id.as_bytes()), received], text)
        }
        Fact::Entry { kind, entry } => append_words(b"  ENTRY", &entry_words(*kind, entry), text),
        Fact::Ver(ver) => append_ver(ver, text),
        Fact::Requisite {
            requisite,
            resolution,
        } => append_requisite(requisite, resolution, text),
        Fact::Hold { hold, resolution } => append_hold(hold, resolution, text),
        Fact::Element(element) => append_element(element, text),
        Fact::Delete { id, own } => {
            let chain = LineWord::If(*own, b"CHAIN", b"-");
            append_words(b"  DELETE", &[LineWord::Text(id.as_bytes()), chain], text)
        }
        Fact::Takes(id) => append_words(b"  TAKES", &[LineWord::Text(id.as_bytes())], text),
        Fact::Npre { id, applied } => {
            let applied = LineWord::If(*applied, b"APPLIED", b"-");
            append_words(b"  NPRE", &[LineWord::Text(id.as_bytes()), applied], text)
        }
        Fact::Forbidden(id) => append_words(b"  FORBIDDEN", &[LineWord::Text(id.as_bytes())], text),
        Fact::Needed(id) => append_words(b"  NEEDED", &[LineWord::Text(id.as_bytes())], text),
    }
}

/// Appends the lines of facts.
pub fn append_facts(facts: &[Fact<'_>], text: &mut Vec<u8>) -> Result<(), AllocError>
    ensures { OnOk result (text.new.items ≡ text.old.items ++ text_of (map fact_view facts.now)) }
{
    for fact in facts {
        append_fact(fact, text)?;
    }
    Ok(())
}

// The return code of a fact which says that the id is unknown.
const UNKNOWN_CODE: u8 = 4;

// The return code of one fact.
fn fact_code(fact: &Fact<'_>) -> u8
    ensures { result ≡ fact_code (fact_view fact.now) }
{
    match fact {
        Fact::Standing {
            standing: Standing::Missing,
            ..
        } => UNKNOWN_CODE,
        _ => 0,
    }
}

/// The return code of `smpe why` for these facts: 4 if one of them says that an id is unknown, otherwise 0.
pub fn facts_code(facts: &[Fact<'_>]) -> u8
    ensures { result ≡ code_of (map fact_view facts.now) }
{
    let mut code: u8 = 0;
    for fact in facts {
        code = code.max(fact_code(fact));
    }
    code
}
