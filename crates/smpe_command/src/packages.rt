//! A package of a shop's own files is asked about: its answer, and its certificate.
ghost use Rattle.std.specs.Prelude.{◌≡◌, ◌&&◌, not, false, true, count_by, map, IfOk, IfErr};
ghost use Rattle.std.specs.List.{flat_map, list_any};
ghost use Rattle.std.specs.String.{string_bytes};
ghost use Rattle.intake_service.specs.Carrying.{is_sysmod};
ghost use Rattle.smpe_certificate.specs.Views.{digest_view};
ghost use Rattle.smpe_jobs.specs.declared.error.JobError.TheVariants.{Memory as NoMemory};
ghost use Rattle.smpe_rehearsal.specs.ServiceSet.{receive_records};
ghost use Rattle.smpe_command.specs.Packages.{AnswersCarried, AnswersPackage, AnswersRehearsed, AnswersSettled};
ghost use Rattle.smpe_command.specs.Packages.{Certifies, ServesPackage, Settles, TellsForm, TellsRemarks, TellsWrite};
ghost use Rattle.smpe_command.specs.Packages.{AnswersIfAny, WritesCertificate, asked_ids, certificate_name, is_plain};
ghost use Rattle.smpe_command.specs.Packages.{TellsAnswer, Writes, is_hold, is_report};
ghost use Rattle.smpe_answer.specs.Answered.{IsSummaryAnswer};
ghost use Rattle.smpe_answer.specs.Documented.{IsDocumentAnswer};
ghost use Rattle.smpe_rehearsal.specs.Told.{TellsText};
ghost use Rattle.smpe_package.specs.Package.{AreIds, id_of};

use crate::carry::{carry_files, write_remarks};
use crate::host::Host;
use crate::inputs::{file_digests, with_database};
use crate::job_files::read_each;
use crate::settled::Settled;
use crate::systems::read_system;
use fields::{Id, IdList};
use mcs::HoldItem;
use report::{Sink, write_all};
use smpe::{Fault, JobError};
use smpe_answer::{Answer, Digest, PackageFacts, json_answer, package_certificate, summary_answer};
use smpe_invocation::{CheckAnswer, CheckForm, CheckedSystem};
use smpe_package::{Package, has_sysmod, package_ids};
use smpe_rehearsal::{
    PackageItems, Rehearsed, ask_about_package, prepare_package, rehearse_package, status_or_fault,
    zone_of,
};
use smpe_why::LoadedZones;
use sqlite_disk::{Disk, Memory};
use std::alloc::Global;
use std::io;
use std::io::ErrorKind;

/// The status of a package that has no SYSMOD.
const NOTHING_CARRIED_STATUS: u8 = 12;

/// How a package is asked about: in which system, and with which answer.
#[derive(Clone, Copy)]
pub(crate) struct PackageCheck<'a> {
    pub(crate) system: &'a CheckedSystem,
    pub(crate) answer: &'a CheckAnswer,
    pub(crate) names: &'a [String],
}

/// Answers for the package of the files of these names, and returns the status. All files are read before anything is
/// made or copied, and a certificate is written before the answer. Returns `CannotRead` if a file cannot be read,
/// `NotCarried` if the files cannot be carried, `NoSource` if the system uses each source that is kept for checks,
/// `CannotWrite` if the certificate cannot be written, and `Job` for a fault of the jobs, of the database or of memory.
pub(crate) fn serve_package<'a, H: Host, O: Sink>(
    alloc: Global,
    host: &mut H,
    check: &PackageCheck<'a>,
    out: &mut O,
) -> Result<u8, Fault<'a>>
    ensures { ServesPackage H.Host ⟦<Memory as Disk>⟧ O.Sink host.old out.old check.now.system.now check.now.answer.now
        (map string_bytes check.now.names.now) result host.new out.new }
{
    let files = read_each(alloc, host, check.names)?;
    let inputs = file_digests(alloc, check.names, files.as_slice())?;
    let carried = carry_files(alloc, check.names, files)?;
    answer_package(alloc, host, check, inputs, carried, out)
}

// Writes the remarks on the package, unless they are for the document, and answers for it.
fn answer_package<'a, H: Host, O: Sink>(
    alloc: Global,
    host: &mut H,
    check: &PackageCheck<'a>,
    inputs: Vec<Digest<'a>>,
    carried: Package,
    out: &mut O,
) -> Result<u8, Fault<'a>>
    ensures { AnswersPackage H.Host ⟦<Memory as Disk>⟧ O.Sink check.now.system.now check.now.answer.now host.old
        (map digest_view inputs.entry.items) carried out.old result host.new out.new }
{
    let status = tell_remarks(check.answer.form, &carried, out)?;
    let answered = answer_if_any(alloc, host, check, inputs, carried, out)?;
    Ok(answered.max(status))
}

// Writes the remarks, unless they are for the document, and returns the status that they bring.
fn tell_remarks<O: Sink>(form: CheckForm, carried: &Package, out: &mut O) -> Result<u8, JobError>
    ensures { TellsRemarks O.Sink out.old carried.now form result out.new }
{
    match form {
        CheckForm::Json => Ok(carried.status),
        CheckForm::Report => write_remarks(carried, out),
        CheckForm::Summary => write_remarks(carried, out),
    }
}

// Answers for the package. A report has nothing to say of one without SYSMODs.
fn answer_if_any<'a, H: Host, O: Sink>(
    alloc: Global,
    host: &mut H,
    check: &PackageCheck<'a>,
    inputs: Vec<Digest<'a>>,
    carried: Package,
    out: &mut O,
) -> Result<u8, Fault<'a>>
    ensures { AnswersIfAny H.Host ⟦<Memory as Disk>⟧ O.Sink check.now.system.now check.now.answer.now host.old
        (map digest_view inputs.entry.items) carried
        (is_report check.now.answer.now.form && not (list_any is_sysmod carried.items.items)) out.old result host.new
        out.new }
{
    if is_report(check.answer.form) && !has_sysmod(carried.items.as_slice()) {
        return Ok(NOTHING_CARRIED_STATUS);
    }
    answer_carried(alloc, host, check, inputs, carried, out)
}

// Whether the answer is the report of the jobs.
fn is_report(form: CheckForm) -> bool
    ensures { result ≡ is_report form }
{
    match form {
        CheckForm::Report => true,
        CheckForm::Summary => false,
        CheckForm::Json => false,
    }
}

// Makes the jobs that rehearse the package, and answers for it.
fn answer_carried<'a, H: Host, O: Sink>(
    alloc: Global,
    host: &mut H,
    check: &PackageCheck<'a>,
    inputs: Vec<Digest<'a>>,
    carried: Package,
    out: &mut O,
) -> Result<u8, Fault<'a>>
    ensures { AnswersCarried H.Host ⟦<Memory as Disk>⟧ O.Sink check.now.system.now check.now.answer.now host.old
        (map digest_view inputs.entry.items) carried out.old result host.new out.new }
{
    let settled = settle(alloc, host, check.system, inputs, carried)?;
    answer_settled(alloc, host, check, &settled, out)
}

/// Reads the system, and makes the jobs that rehearse the package in it.
pub(crate) fn settle<'a, H: Host>(
    alloc: Global,
    host: &mut H,
    system: &'a CheckedSystem,
    inputs: Vec<Digest<'a>>,
    carried: Package,
) -> Result<Settled<'a>, Fault<'a>>
    ensures settles { Settles H.Host ⟦<Memory as Disk>⟧ host.old system.entry.now (map digest_view inputs.entry.items)
        carried result host.new }
    ensures receive { IfOk result (λ settled. settled.prepared.jobs.receive.items ≡ receive_records) }
{
    let ids = ids_of_package(alloc, &carried)?;
    let holds_read = hold_count(carried.hold_items.as_slice());
    let read = read_system(host, system)?;
    let inputs = with_database(system, &read, inputs)?;
    let Package {
        items,
        hold_items,
        remarks,
        unsure,
        status,
    } = carried;
    let prepared = prepare_package(alloc, &read, PackageItems { items, hold_items })?;
    Ok(Settled {
        system: read,
        prepared,
        ids,
        unsure,
        remarks,
        status,
        holds_read,
        inputs,
    })
}

// How many of these are holds.
fn hold_count(items: &[HoldItem]) -> usize
    ensures { result ≡ count_by is_hold items.now }
{
    items.iter().filter(|item| is_hold(item)).count()
}

// Whether this is a hold, and no release.
fn is_hold(item: &HoldItem) -> bool
    ensures { result ≡ is_hold item.now }
{
    match item {
        HoldItem::Hold(_) => true,
        HoldItem::Release(_) => false,
    }
}

// The ids of the SYSMODs of the package. Returns `Memory` if memory runs out.
fn ids_of_package(alloc: Global, carried: &Package) -> Result<IdList, JobError>
    ensures ok { IfOk result (λ ids. AreIds ids (flat_map id_of carried.now.items.items)) }
    ensures err { IfErr result (λ error. error ≡ NoMemory) }
{
    Ok(package_ids(alloc, carried.items.as_slice())?)
}

// Answers for the package. For nothing but the report, only its jobs run.
fn answer_settled<'a, H: Host, O: Sink>(
    alloc: Global,
    host: &mut H,
    check: &PackageCheck<'a>,
    settled: &Settled<'a>,
    out: &mut O,
) -> Result<u8, Fault<'a>>
    requires { settled.now.prepared.jobs.receive.items ≡ receive_records }
    ensures { AnswersSettled H.Host ⟦<Memory as Disk>⟧ O.Sink host.old check.now.answer.now settled.now
        (asked_ids check.now.system.now) out.old
        (is_plain check.now.answer.now.form (certificate_name check.now.answer.now)) result host.new out.new }
{
    if is_plain(check.answer) {
        let ids = asked_ids(check.system);
        let (system, prepared) = (&settled.system, &settled.prepared);
        return status_or_fault(ask_about_package(alloc, system, prepared, ids, out));
    }
    let rehearsed = rehearse_package(alloc, &settled.system, &settled.prepared)?;
    answer_rehearsed(alloc, host, check, settled, &rehearsed, out)
}

// Whether nothing is wanted but the report.
fn is_plain(answer: &CheckAnswer) -> bool
    ensures { result ≡ is_plain answer.now.form (certificate_name answer.now) }
{
    is_report(answer.form) && answer.certificate.is_none()
}

// The ids about which the words ask besides.
fn asked_ids(system: &CheckedSystem) -> &[Id]
    ensures { result.now ≡ asked_ids system.now }
{
    match system {
        CheckedSystem::Empty(_) => &[],
        CheckedSystem::Copied(copy) => copy.ids.as_slice(),
    }
}

// Writes the certificate, if one is asked for, and then answers.
fn answer_rehearsed<'a, H: Host, O: Sink>(
    alloc: Global,
    host: &mut H,
    check: &PackageCheck<'a>,
    settled: &Settled<'a>,
    rehearsed: &Rehearsed,
    out: &mut O,
) -> Result<u8, Fault<'a>>
    requires { settled.now.prepared.jobs.receive.items ≡ receive_records }
    ensures { AnswersRehearsed H.Host ⟦<Memory as Disk>⟧ O.Sink host.old check.now.answer.now settled.now
        (asked_ids check.now.system.now) out.old rehearsed.now result host.new out.new }
{
    certify(alloc, host, check.answer, settled, &rehearsed.zones)?;
    status_or_fault(tell_in_form(alloc, check, settled, rehearsed, out))
}

// Writes the certificate into a new file, if one is asked for and there is such a zone.
fn certify<'a, H: Host>(
    alloc: Global,
    host: &mut H,
    answer: &'a CheckAnswer,
    settled: &Settled<'_>,
    zones: &LoadedZones,
) -> Result<(), Fault<'a>>
    ensures { Certifies H.Host host.old zones.now settled.now.prepared.source
        (map digest_view settled.now.inputs.items) (certificate_name answer.entry.now) result host.new }
{
    match &answer.certificate {
        None => Ok(()),
        Some(name) => write_certificate(alloc, host, name.as_str(), settled, zones),
    }
}

// Writes the certificate into a new file of this name, if there is such a zone.
fn write_certificate<'a, H: Host>(
    alloc: Global,
    host: &mut H,
    name: &'a str,
    settled: &Settled<'_>,
    zones: &LoadedZones,
) -> Result<(), Fault<'a>>
    ensures { WritesCertificate H.Host host.old zones.now settled.now.prepared.source
        (map digest_view settled.now.inputs.items) name.entry.now result host.new }
{
    let source = settled.prepared.source;
    match package_certificate(alloc, zones, source, settled.inputs.as_slice()) {
        Err(_) => Err(Fault::Job(JobError::Memory)),
        Ok(None) => Ok(()),
        Ok(Some(text)) => write_text(host, name, text.as_slice()),
    }
}

// Writes the text into a new file of this name.
fn write_text<'a, H: Host>(host: &mut H, name: &'a str, text: &[u8]) -> Result<(), Fault<'a>>
    ensures { Writes H.Host host.old name.entry.now text.now result host.new }
{
    match host.write_new(name, text) {
        Ok(()) => Ok(()),
        Err(error) => Err(write_fault(name, &error)),
    }
}

// How the error of a write is reported.
fn write_fault<'a>(name: &'a str, error: &io::Error) -> Fault<'a>
    ensures { TellsWrite name.entry.now error.now result }
{
    match error.kind() {
        ErrorKind::OutOfMemory => Fault::Job(JobError::Memory),
        _ => Fault::CannotWrite(name),
    }
}

// Answers in the form that is asked for, and returns the status.
fn tell_in_form<O: Sink>(
    alloc: Global,
    check: &PackageCheck<'_>,
    settled: &Settled<'_>,
    rehearsed: &Rehearsed,
    out: &mut O,
) -> Result<u8, JobError>
    requires { settled.now.prepared.jobs.receive.items ≡ receive_records }
    ensures { TellsForm ⟦<Memory as Disk>⟧ O.Sink settled.now (asked_ids check.now.system.now) out.old
        check.now.answer.now.form rehearsed.now result out.new }
{
    let ids = asked_ids(check.system);
    let facts = PackageFacts {
        zone: zone_of(&settled.system),
        source: settled.prepared.source,
        ids: &settled.ids,
        unsure: &settled.unsure,
        remarks: settled.remarks.as_slice(),
        status: settled.status.max(rehearsed.status),
        holds_read: settled.holds_read,
    };
    match check.answer.form {
        CheckForm::Report => ask_about_package(alloc, &settled.system, &settled.prepared, ids, out),
        CheckForm::Summary => tell_summary(alloc, &rehearsed.zones, &facts, ids, out),
        CheckForm::Json => tell_document(alloc, &rehearsed.zones, &facts, out),
    }
}

// Writes the summary of the package and what is told of the ids, and returns the status.
fn tell_summary<O: Sink>(
    alloc: Global,
    zones: &LoadedZones,
    facts: &PackageFacts<'_>,
    ids: &[Id],
    out: &mut O,
) -> Result<u8, JobError>
    ensures { TellsAnswer O.Sink out.old (IsSummaryAnswer zones.now facts.now ids.now) result out.new }
{
    let answer = summary_answer(alloc, zones, facts, ids)?;
    write_answer(&answer, out)
}

// Writes the document about the package, and returns the status.
fn tell_document<O: Sink>(
    alloc: Global,
    zones: &LoadedZones,
    facts: &PackageFacts<'_>,
    out: &mut O,
) -> Result<u8, JobError>
    ensures { TellsAnswer O.Sink out.old (IsDocumentAnswer zones.now facts.now zones.now.zone) result out.new }
{
    let answer = json_answer(alloc, zones, facts)?;
    write_answer(&answer, out)
}

/// Writes the answer, and returns its status. Returns `Write` if it cannot be written.
pub(crate) fn write_answer<O: Sink>(answer: &Answer, out: &mut O) -> Result<u8, JobError>
    ensures { TellsText O.Sink out.old out.new answer.now.text.items answer.now.status result }
{
    write_all(answer.text.as_slice(), out)?;
    Ok(answer.status)
}
