//! What `smpe lint` answers.
ghost use Rattle.std.specs.Prelude.{◌≡◌, ◌⊎◌, [], ℕ, List, length, IsTrue, IfOk};
ghost use Rattle.terms.specs.Types.{Global as AGlobal};
ghost use Rattle.terms.specs.Stream.{IsClean, ver_for};
ghost use Rattle.stream.specs.Lints.{AreFindings};
ghost use Rattle.intake_service.specs.Carrying.{HasEachSysmod};
ghost use Rattle.smpe_lint.specs.Linted.{IsCleanStream, CarriesCleanStream, IsCleanStatus};

use crate::breaches::append_breaches;
use crate::faults::{append_first_faults, append_refused, faults_of};
use crate::finding::{Finding, Rule};
use crate::inputs::{Inputs, ShownFile, shown, shown_files};
use crate::json::object_of;
use crate::receiving::{Received, RefusedSysmod, receive_all, take_holds};
use crate::remarks::append_remarks;
use crate::text::{counts_of, lines_of};
use fields::Srel;
use intake_cards::RemarkList;
use intake_service::{CardOptions, Carried, GivenFile, InputFiles, IntakeFault, Narrowed, carry};
use mcs::{HoldItem, Item};
use smpe_invocation::LintForm;
use std::alloc::{AllocError, Global};
use stream::{Findings, lint};

/// The statuses: of a clean stream without remarks, of one with some, of one that breaks a rule or has a fault, and of
/// files that could not be read.
const CLEAN: u8 = 0;

const REMARKS: u8 = 4;

const BROKEN: u8 = 8;

const REFUSED: u8 = 12;

/// What is printed, and the status: 0 if the stream is clean, 4 if there are remarks besides, 8 if a rule is broken or
/// a statement faulty, and 12 if nothing could be read.
#[derive(Drop)]
pub struct LintAnswer {
    pub text: Vec<u8>,
    pub status: u8,
}

/// What RECEIVE and the rules say of the stream.
#[derive(Drop)]
struct Judged {
    received: Received,
    findings: Findings,
    clean: bool,
}

// Whether each SYSMOD that the files state is carried, and nothing else is left out that may be asked for.
fn is_whole(carried: &Carried) -> bool
    ensures { IsTrue result → HasEachSysmod carried.now.files.items carried.now.narrowed.items.items }
{
    carried.status() == 0
}

// Whether nothing is refused and nothing breaks the rules.
fn is_clean(refused: &[RefusedSysmod], findings: &Findings) -> bool
    ensures received { IsTrue result → refused.now ≡ [] }
    ensures clean { IsTrue result → (g : AGlobal) (srel : List ℕ) → AreFindings g srel findings.now
        → IsClean g (ver_for g srel) }
{
    refused.is_empty() && findings.is_clean()
}

// What RECEIVE and the rules say of these items.
fn judge(
    alloc: Global,
    items: Vec<Item>,
    hold_items: Vec<HoldItem>,
    srel: Srel,
) -> Result<Judged, AllocError>
    ensures { IfOk result (λ judged. IsTrue judged.clean → IsCleanStream srel items.items) }
{
    let mut received = receive_all(alloc, items)?;
    take_holds(&mut received.global, hold_items)?;
    let findings = lint(alloc, &received.global, srel)?;
    let clean = is_clean(received.refused.as_slice(), &findings);
    Ok(Judged {
        received,
        findings,
        clean,
    })
}

// All findings, the faults first.
fn all_findings(
    alloc: Global,
    given: &[GivenFile<'_>],
    inputs: &Inputs,
    remarks: &RemarkList,
    srel: Srel,
    judged: &Judged,
) -> Result<Vec<Finding>, AllocError> {
    let mut told = Vec::new(alloc);
    let mut faults = faults_of(alloc, remarks)?;
    append_first_faults(alloc, given, &faults, &mut told)?;
    told.append(&mut faults)?;
    append_refused(alloc, inputs, judged.received.refused.as_slice(), &mut told)?;
    append_breaches(alloc, inputs, &judged.findings, &mut told)?;
    append_remarks(alloc, inputs, srel, &judged.findings, &mut told)?;
    Ok(told)
}

// The status of a stream that could be read.
fn status_of(whole: bool, clean: bool, told: &[Finding]) -> u8
    ensures whole { IsCleanStatus result → IsTrue whole }
    ensures clean { IsCleanStatus result → IsTrue clean }
    ensures known { IsCleanStatus result ⊎ (result ≡ 8) }
{
    if !whole {
        return BROKEN;
    }
    let counts = counts_of(told);
    if !clean || counts.faults > 0 {
        BROKEN
    } else if counts.remarks > 0 {
        REMARKS
    } else {
        CLEAN
    }
}

// The answer in the form that is asked for.
fn formed(
    alloc: Global,
    files: &[ShownFile],
    form: LintForm,
    sysmods: usize,
    status: u8,
    told: &[Finding],
) -> Result<LintAnswer, AllocError>
    ensures { IfOk result (λ answer. answer.status ≡ status) }
{
    let text = match form {
        LintForm::Text => lines_of(alloc, files, sysmods, told)?,
        LintForm::Json => object_of(alloc, files, sysmods, status, told)?,
    };
    Ok(LintAnswer { text, status })
}

// The answer about files of which something is carried.
fn answer(
    alloc: Global,
    given: &[GivenFile<'_>],
    carried: Carried,
    srel: Srel,
    form: LintForm,
) -> Result<LintAnswer, AllocError>
    ensures clean { IfOk result (λ answer. IsCleanStatus answer.status
        → HasEachSysmod carried.files.items carried.narrowed.items.items
        × IsCleanStream srel carried.narrowed.items.items) }
    ensures known { IfOk result (λ answer. IsCleanStatus answer.status ⊎ (answer.status ≡ 8)) }
{
    let whole = is_whole(&carried);
    let Carried { files, narrowed } = carried;
    let Narrowed {
        items,
        hold_items,
        remarks,
        named,
        ..
    } = narrowed;
    let inputs = Inputs::new(alloc, given, &files, named)?;
    let judged = judge(alloc, items, hold_items, srel)?;
    let told = all_findings(alloc, given, &inputs, &remarks, srel, &judged)?;
    let status = status_of(whole, judged.clean, &told);
    formed(
        alloc,
        inputs.files(),
        form,
        judged.received.global.len(),
        status,
        &told,
    )
}

// Why nothing could be read, a text for each reason. Each text has its place.
fn refusal_texts(alloc: Global, fault: &IntakeFault) -> Result<Vec<String>, AllocError> {
    let mut texts = Vec::new(alloc);
    match fault {
        IntakeFault::Statements(lines) => {
            for line in lines.iter() {
                texts.push(shown(alloc, line.as_slice())?)?;
            }
        }
        IntakeFault::NoCards { name, error } => {
            texts.push(format!(in alloc; "{name}: {error}")?)?;
        }
        _ => texts.push(String::from_str(alloc, "no file has a statement")?)?,
    }
    Ok(texts)
}

// The answer about files that could not be read.
fn refusal(
    alloc: Global,
    given: &[GivenFile<'_>],
    fault: IntakeFault,
    form: LintForm,
) -> Result<LintAnswer, AllocError>
    ensures { IfOk result (λ answer. answer.status ≡ 12) }
{
    if matches!(fault, IntakeFault::Memory) {
        return Err(AllocError);
    }
    let files = shown_files(alloc, given)?;
    let mut told = Vec::new(alloc);
    for text in refusal_texts(alloc, &fault)? {
        told.push(Finding::new(alloc, Rule::Refused, text))?;
    }
    formed(alloc, &files, form, 0, REFUSED, &told)
}

/// The answer of `smpe lint` about these files, for systems of this SREL. Elements that the profile lacks count too, by
/// their stand-ins. The status is 0 or 4 only if each SYSMOD that the files state is carried, and what is carried is a
/// clean stream.
pub fn lint_files(
    alloc: Global,
    files: &[GivenFile<'_>],
    srel: Srel,
    form: LintForm,
) -> Result<LintAnswer, AllocError>
    ensures clean { IfOk result
        (λ answer. IsCleanStatus answer.status → CarriesCleanStream (length files.now) srel) }
    ensures known { IfOk result
        (λ answer. IsCleanStatus answer.status ⊎ (answer.status ≡ 8) ⊎ (answer.status ≡ 12)) }
{
    let mut inputs = InputFiles::new(alloc);
    let cards = CardOptions {
        layout: None,
        code: None,
    };
    match carry(alloc, &mut inputs, files, cards, true) {
        Ok(carried) => answer(alloc, files, carried, srel, form),
        Err(fault) => refusal(alloc, files, fault, form),
    }
}
