//! The lines of an element.
ghost use Rattle.std.specs.Prelude.{◌≡◌, ◌++◌, OnOk};
ghost use Rattle.why_facts.specs.FactText.{maker_line, fact_text};
ghost use Rattle.report.specs.FactViews.{maker_view, element_view};

use crate::fact_words::relation_word;
use crate::indent::INDENT;
use fields::spelling::type_text;
use report::{ChangedElement, ELEM_TYPE_WIDTH, LineWord, Maker, NAME_WIDTH, append_words};
use std::alloc::AllocError;

// Appends the line of a SYSMOD that made the element; the word is `RMID` or `UMID`.
fn append_maker(word: &[u8], maker: Maker, text: &mut Vec<u8>) -> Result<(), AllocError>
    ensures { OnOk result (text.new.items ≡ text.old.items ++ maker_line word.now (maker_view maker)) }
{
    let words = [
        LineWord::Text(word),
        LineWord::Text(maker.id.as_bytes()),
        LineWord::Text(relation_word(maker.relation)),
    ];
    append_words(INDENT, &words, text)
}

/// Appends the lines of an element that is replaced or updated, with what the zone has of it.
pub(crate) fn append_element(element: &ChangedElement, text: &mut Vec<u8>) -> Result<(), AllocError>
    ensures { OnOk result (text.new.items ≡ text.old.items ++ fact_text (element_view element.now)) }
{
    let elem_type = LineWord::Left(ELEM_TYPE_WIDTH, type_text(element.elem_type));
    let name = LineWord::Left(NAME_WIDTH, element.name.as_bytes());
    let change = LineWord::If(element.replaces, b"REPLACES", b"UPDATES");
    let fmid = LineWord::Text(b"FMID");
    let Some(found) = &element.found else {
        let words = [elem_type, name, change, fmid, LineWord::Text(b"-")];
        return append_words(b"  ELEM", &words, text);
    };
    let owner = LineWord::Text(found.fmid.as_bytes());
    let owned = LineWord::If(found.owned, b"OWNED", b"NOTOWNED");
    let words = [elem_type, name, change, fmid, owner, owned];
    append_words(b"  ELEM", &words, text)?;
    append_maker(b"RMID", found.rmid, text)?;
    for umid in found.umids.as_slice() {
        append_maker(b"UMID", *umid, text)?;
    }
    Ok(())
}
