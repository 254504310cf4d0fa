//! The text of a certificate.
ghost use Rattle.std.specs.Prelude.{◌≡◌, ◌++◌, IfOk, OnOk, map};
ghost use Rattle.std.specs.List.{flat_map};
ghost use Rattle.smpe_certificate.specs.Views.{certificate_view, digest_view, dropped_view};
ghost use Rattle.smpe_certificate.specs.Text.{shown, input_line, ineligible_line, dropped_line, kept_line, served_line};
ghost use Rattle.smpe_certificate.specs.Text.{facts_text, inputs_text, end_line};
ghost use Rattle.smpe_certificate.specs.Text.{certificate_text as text_of};

use crate::digest::Digest;
use crate::facts::{Certificate, DroppedFact, IneligibleFact, ServedFact};
use fields::Id;
use fields::spelling::{need_text, test_text};
use report::{LineWord, append_words};
use sha2::{Digest as _, Sha256};
use std::alloc::{AllocError, Global};

// The byte, or a question mark for a control character, which could break a line.
fn shown_byte(byte: u8) -> u8
    ensures { result ≡ shown byte }
{
    if byte < b' ' || byte == 0x7f {
        return b'?';
    }
    byte
}

// The name of a file and its suffix, as a certificate shows them.
fn shown_name(alloc: Global, name: &[u8], suffix: &[u8]) -> Result<Vec<u8>, AllocError>
    ensures { IfOk result (λ text. text.items ≡ map shown (name.now ++ suffix.now)) }
{
    let bytes = name.iter().chain(suffix.iter());
    bytes.map(|byte| shown_byte(*byte)).collect(alloc)
}

// Appends the line of a file that was read.
fn append_input(alloc: Global, input: &Digest<'_>, text: &mut Vec<u8>) -> Result<(), AllocError>
    ensures { OnOk result (text.new.items ≡ text.old.items ++ input_line (digest_view input.now)) }
{
    let digest = hex::encode(alloc, input.sha256)?;
    let name = shown_name(alloc, input.name.as_bytes(), input.suffix.as_bytes())?;
    let words = [
        LineWord::Text(b"sha256"),
        LineWord::Text(digest.as_bytes()),
        LineWord::Text(name.as_slice()),
    ];
    append_words(b"INPUT", &words, text)
}

// Appends the lines of the files that were read.
fn append_inputs(alloc: Global, inputs: &[Digest<'_>], text: &mut Vec<u8>) -> Result<(), AllocError>
    ensures { OnOk result (text.new.items ≡ text.old.items ++ inputs_text (map digest_view inputs.now)) }
{
    for input in inputs {
        append_input(alloc, input, text)?;
    }
    Ok(())
}

// Appends the line of a candidate that is not eligible.
fn append_ineligible(fact: &IneligibleFact, text: &mut Vec<u8>) -> Result<(), AllocError>
    ensures { OnOk result (text.new.items ≡ text.old.items ++ ineligible_line fact.now) }
{
    let words = [
        LineWord::Text(fact.id.as_bytes()),
        LineWord::Text(b"TEST"),
        LineWord::Text(test_text(fact.test)),
    ];
    append_words(b"INELIGIBLE", &words, text)
}

// Appends the line of a candidate that is dropped.
fn append_dropped(fact: &DroppedFact, text: &mut Vec<u8>) -> Result<(), AllocError>
    ensures { OnOk result (text.new.items ≡ text.old.items ++ dropped_line (dropped_view fact.now)) }
{
    let words = [
        LineWord::Text(fact.id.as_bytes()),
        LineWord::Text(b"NEED"),
        LineWord::Text(need_text(fact.kind)),
        LineWord::Text(fact.needed.as_bytes()),
        LineWord::Text(b"SERVERS"),
        LineWord::Ids(fact.servers.as_slice()),
    ];
    append_words(b"DROPPED", &words, text)
}

// Appends the line of a kept candidate.
fn append_kept(id: Id, text: &mut Vec<u8>) -> Result<(), AllocError>
    ensures { OnOk result (text.new.items ≡ text.old.items ++ kept_line id) }
{
    append_words(b"KEPT", &[LineWord::Text(id.as_bytes())], text)
}

// Appends the line of a need of a kept candidate.
fn append_served(fact: &ServedFact, text: &mut Vec<u8>) -> Result<(), AllocError>
    ensures { OnOk result (text.new.items ≡ text.old.items ++ served_line fact.now) }
{
    let words = [
        LineWord::Text(fact.id.as_bytes()),
        LineWord::Text(need_text(fact.kind)),
        LineWord::Text(fact.needed.as_bytes()),
        LineWord::Text(b"BY"),
        LineWord::Text(fact.by.as_bytes()),
    ];
    append_words(b"NEED", &words, text)
}

// Appends the lines of the candidates that are not eligible.
fn append_all_ineligible(facts: &[IneligibleFact], text: &mut Vec<u8>) -> Result<(), AllocError>
    ensures { OnOk result (text.new.items ≡ text.old.items ++ flat_map ineligible_line facts.now) }
{
    for fact in facts {
        append_ineligible(fact, text)?;
    }
    Ok(())
}

// Appends the lines of the candidates that are dropped.
fn append_all_dropped(facts: &[DroppedFact], text: &mut Vec<u8>) -> Result<(), AllocError>
    ensures { OnOk result (text.new.items ≡ text.old.items ++ flat_map dropped_line (map dropped_view facts.now)) }
{
    for fact in facts {
        append_dropped(fact, text)?;
    }
    Ok(())
}

// Appends the lines of the kept candidates.
fn append_all_kept(ids: &[Id], text: &mut Vec<u8>) -> Result<(), AllocError>
    ensures { OnOk result (text.new.items ≡ text.old.items ++ flat_map kept_line ids.now) }
{
    for id in ids {
        append_kept(*id, text)?;
    }
    Ok(())
}

// Appends the lines of the needs of the kept candidates.
fn append_all_served(facts: &[ServedFact], text: &mut Vec<u8>) -> Result<(), AllocError>
    ensures { OnOk result (text.new.items ≡ text.old.items ++ flat_map served_line facts.now) }
{
    for fact in facts {
        append_served(fact, text)?;
    }
    Ok(())
}

// Appends the lines of all facts.
fn append_facts(certificate: &Certificate, text: &mut Vec<u8>) -> Result<(), AllocError>
    ensures { OnOk result (text.new.items ≡ text.old.items ++ facts_text (certificate_view certificate.now)) }
{
    append_all_ineligible(certificate.ineligible.as_slice(), text)?;
    append_all_dropped(certificate.dropped.as_slice(), text)?;
    append_all_kept(certificate.kept.as_slice(), text)?;
    append_all_served(certificate.served.as_slice(), text)
}

// Appends the last line: the digest of all lines before it.
fn append_end(alloc: Global, text: &mut Vec<u8>) -> Result<(), AllocError>
    ensures { OnOk result (text.new.items ≡ text.old.items ++ end_line text.old.items) }
{
    let digest = hex::encode(alloc, Sha256::digest(text.as_slice()))?;
    let words = [LineWord::Text(b"sha256"), LineWord::Text(digest.as_bytes())];
    append_words(b"END", &words, text)
}

/// The text of a certificate: its version, the files that were read, the facts, and the digest of all that. In the name
/// of a file each control character is a question mark.
pub(crate) fn certificate_text(
    alloc: Global,
    inputs: &[Digest<'_>],
    certificate: &Certificate,
) -> Result<Vec<u8>, AllocError>
    ensures { IfOk result (λ text. text.items
        ≡ text_of (map digest_view inputs.now) (certificate_view certificate.now)) }
{
    let mut text = Vec::new(alloc);
    append_words(b"CERTIFICATE", &[LineWord::Text(b"1")], &mut text)?;
    append_inputs(alloc, inputs, &mut text)?;
    append_facts(certificate, &mut text)?;
    append_end(alloc, &mut text)?;
    Ok(text)
}
