//! What a command names and nothing received has: source ids, functions, reasons and classes.
use crate::asking::{Database, listed, texts};
use crate::fault::WarningFault;
use cntl::{Bypass, Selection};
use fields::Reasons;
use std::alloc::{AllocError, Global};

/// How many of several things are named.
const MOST_NAMED: usize = 8;

/// Adds what to say of source ids and functions that no received SYSMOD has.
pub(crate) fn selection_hints<D: Database>(
    alloc: Global,
    selection: &Selection,
    database: &mut D,
    warnings: &mut Vec<String>,
) -> Result<(), WarningFault> {
    if !selection.sourceid.is_empty() {
        let select = "SELECT DISTINCT name FROM source ORDER BY name";
        let known = texts(alloc, database, select, &[])?;
        for source in selection.sourceid.iter() {
            let missing = "no received SYSMOD has source";
            add_if_unknown(
                alloc,
                missing,
                source.as_bytes(),
                known.as_slice(),
                warnings,
            )?;
        }
    }
    if !selection.forfmid.is_empty() {
        let select = "SELECT id FROM sysmod WHERE kind = 'FUNCTION' \
             UNION SELECT fmid FROM ver WHERE fmid IS NOT NULL ORDER BY 1";
        let known = texts(alloc, database, select, &[])?;
        for function in selection.forfmid.iter() {
            let missing = "no received SYSMOD is or belongs to function";
            add_if_unknown(
                alloc,
                missing,
                function.as_bytes(),
                known.as_slice(),
                warnings,
            )?;
        }
    }
    Ok(())
}

// Adds that something is missing, and what there is, if the word is not among what is known.
fn add_if_unknown(
    alloc: Global,
    missing: &str,
    word: &[u8],
    known: &[String],
    warnings: &mut Vec<String>,
) -> Result<(), AllocError> {
    let word = String::from_utf8_lossy(alloc, word)?;
    if known.contains(&word) {
        return Ok(());
    }
    let rest = known_text(alloc, known)?;
    let (word, rest) = (word.as_str(), rest.as_str());
    warnings.push(format!(in alloc; "{missing} {word}; {rest}")?)?;
    Ok(())
}

// What there is, after a semicolon.
fn known_text(alloc: Global, known: &[String]) -> Result<String, AllocError> {
    if known.is_empty() {
        return String::from_str(alloc, "there is none");
    }
    let verb = if known.len() == 1 { "is" } else { "are" };
    let list = listed(alloc, known, MOST_NAMED)?;
    let list = list.as_str();
    format!(in alloc; "there {verb} {list}")
}

/// Adds what to say of reasons and classes in BYPASS that no hold has.
pub(crate) fn bypass_hints<D: Database>(
    alloc: Global,
    bypass: &Bypass,
    database: &mut D,
    warnings: &mut Vec<String>,
) -> Result<(), WarningFault> {
    reason_hints(alloc, "ERROR", &bypass.holderror, database, warnings)?;
    reason_hints(alloc, "SYSTEM", &bypass.holdsystem, database, warnings)?;
    reason_hints(alloc, "USER", &bypass.holduser, database, warnings)?;
    if !bypass.holdclass.is_empty() {
        let select = "SELECT DISTINCT class FROM hold WHERE class IS NOT NULL ORDER BY class";
        let known = texts(alloc, database, select, &[])?;
        for class in bypass.holdclass.iter() {
            let missing = "no hold has the class";
            add_if_unknown(alloc, missing, class.as_bytes(), known.as_slice(), warnings)?;
        }
    }
    Ok(())
}

// Adds what to say of reasons in a member of BYPASS that no hold of this kind has.
fn reason_hints<D: Database>(
    alloc: Global,
    kind: &str,
    reasons: &Reasons,
    database: &mut D,
    warnings: &mut Vec<String>,
) -> Result<(), WarningFault> {
    let Reasons::These(reasons) = reasons else {
        return Ok(());
    };
    let select = "SELECT DISTINCT reason FROM hold WHERE kind = ?1 ORDER BY reason";
    let known = texts(alloc, database, select, &[kind])?;
    let missing = format!(in alloc; "no {kind} hold has the reason")?;
    for reason in reasons.iter() {
        add_if_unknown(
            alloc,
            missing.as_str(),
            reason.as_bytes(),
            known.as_slice(),
            warnings,
        )?;
    }
    Ok(())
}
