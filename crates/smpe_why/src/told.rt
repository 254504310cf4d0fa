//! The answer to a question about ids in a zone that was loaded.
ghost use Rattle.std.specs.Prelude.{◌≡◌, ◌++◌, ◌+◌, ℕ, max, Some, map, option_copied, IfOk, OnOk};
ghost use Rattle.terms.specs.Types.{Text as AText, Zone as AZone};
ghost use Rattle.terms.specs.Choice.{place};
ghost use Rattle.sysmods.specs.Choices.{number_in};
ghost use Rattle.zones.specs.Scopes.{setting_of};
ghost use Rattle.machine.specs.Installing.{InstallsSelected};
ghost use Rattle.machine.specs.Outcome.{NoZone};
ghost use Rattle.machine.specs.Report.{refused_text};
ghost use Rattle.report.specs.Views.{line_view};
ghost use Rattle.report.specs.Facts.{among};
ghost use Rattle.smpe_why.specs.Scopes.{IsScopeOf};
ghost use Rattle.machine_laws.specs.AnyDate.{Selects};
ghost use Rattle.smpe_why.specs.Telling.{IsTold, AreToldBy, AreToldInTurn, IsToldOf};

use crate::found::LoadedZones;
use crate::question::Question;
use fields::{Attest, Bypass, Id, IdList, Selection, SourceList, YyDdd};
use report::{LineWord, ReportLine, append_words};
use select::candidates;
use smpe_service::{InstallChange, apply};
use std::alloc::{AllocError, Global};
use why_facts::{Lookups, append_facts, facts_code, id_facts};
use why_verdict::{VerdictFacts, append_verdict, conflicts_of};
use zones::{Candidates, Scope, Zone, counting_vers, deletions};

// The status of a program that was asked about an unknown zone.
const REFUSED_STATUS: u8 = 12;

// The year of the installs. Any date will do, because no line contains it.
const ANY_YEAR: u16 = 2000;

// The day of the installs in that year.
const ANY_DAY: u16 = 1;

/// The lines of the answer, and the program's status.
#[derive(Drop)]
pub struct WhyAnswer {
    pub text: Vec<u8>,
    pub status: u8,
}

/// The answer for the zone that was loaded, or the refusal if there is no such zone. For each id of the question, in
/// order, the answer has the id's facts and what would become of the id in an APPLY (in a distribution zone, an ACCEPT)
/// that selects it alone or with the others.
pub fn answer_question(
    alloc: Global,
    loaded_zones: &LoadedZones,
    question: &Question<'_>,
) -> Result<WhyAnswer, AllocError>
    ensures { IfOk result (IsTold loaded_zones.now.global loaded_zones.now.zone loaded_zones.now.related question.now) }
{
    let Some(zone) = &loaded_zones.zone else {
        return refuse_unknown_zone(alloc);
    };
    let lookups = Lookups::find(alloc, &loaded_zones.global, zone)?;
    answer_in_zone(alloc, &lookups, loaded_zones.related.as_ref(), question)
}

// The answer for a zone that exists: by one command that selects all ids, or by a command for each id, one after the
// other, with the greatest of their statuses.
fn answer_in_zone(
    alloc: Global,
    lookups: &Lookups<'_>,
    related: Option<&Zone>,
    question: &Question<'_>,
) -> Result<WhyAnswer, AllocError>
    ensures { IfOk result
        (IsTold lookups.now.global.now (Some lookups.now.zone.now) (option_copied related.entry) question.now) }
{
    if question.together {
        return describe_selected_ids(alloc, lookups, related, question, question.ids);
    }
    let ids = question.ids;
    let mut answer = WhyAnswer {
        text: Vec::new(alloc),
        status: 0,
    };
    for id in ids {
        let part = describe_selected_ids(alloc, lookups, related, question, &[*id])?;
        answer.text.extend_from_slice(part.text.as_slice())?;
        answer.status = answer.status.max(part.status);
    }
    Ok(answer)
}

// The answer about these ids, in order, from the lines of one command that selects them all.
fn describe_selected_ids(
    alloc: Global,
    lookups: &Lookups<'_>,
    related: Option<&Zone>,
    question: &Question<'_>,
    ids: &[Id],
) -> Result<WhyAnswer, AllocError>
    ensures { IfOk result (λ answer. AreToldBy lookups.now.global.now lookups.now.zone.now (option_copied related.entry)
        question.now ids.now answer.text.items answer.status) }
{
    let selection = selection_of_ids(alloc, ids, question.groupextend)?;
    let Candidates {
        ids: candidates,
        ..
    } = candidates(alloc, lookups.global, lookups.zone, &selection)?;
    let lines = install_lines(alloc, lookups, related, &selection, question.bypass)?;
    let lines = lines.as_slice();
    let vers = counting_vers(alloc, lookups.global, lookups.zone, &candidates)?;
    let dels = deletions(alloc, &vers, candidates.as_slice())?;
    let scope = Scope {
        vers: &vers,
        zone: lookups.zone,
        ids: &candidates,
        dels: dels.as_slice(),
        bypass: question.bypass,
    };
    describe_ids(alloc, lookups, &scope, lines, ids)
}

// The answer about the ids, in order, from these lines of an install with the candidates of this scope.
fn describe_ids<'a>(
    alloc: Global,
    lookups: &Lookups<'a>,
    scope: &Scope<'_, 'a>,
    lines: &[ReportLine],
    ids: &[Id],
) -> Result<WhyAnswer, AllocError>
    requires { IsScopeOf lookups.now.global.now lookups.now.zone.now scope.now }
    ensures { IfOk result (λ answer. AreToldInTurn lookups.now.global.now lookups.now.zone.now scope.now.ids.now
        scope.now.bypass.now (map line_view lines.now) ids.now answer.text.items answer.status) }
{
    let mut answer = WhyAnswer {
        text: Vec::new(alloc),
        status: 0,
    };
    for id in ids {
        append_id_lines(alloc, lookups, scope, lines, *id, &mut answer)?;
    }
    Ok(answer)
}

// Adds to the answer the facts of the id, for an install with the candidates of this scope, and what `lines` say about
// the id. Raises the status to the code of the facts, if that is greater.
fn append_id_lines<'a>(
    alloc: Global,
    lookups: &Lookups<'a>,
    scope: &Scope<'_, 'a>,
    lines: &[ReportLine],
    id: Id,
    answer: &mut WhyAnswer,
) -> Result<(), AllocError>
    requires { IsScopeOf lookups.now.global.now lookups.now.zone.now scope.now }
    ensures { OnOk result ((text : AText) × (code : ℕ)
        × IsToldOf (among lookups.now.global.now lookups.now.zone.now scope.now.ids.now scope.now.bypass.now id)
        (map line_view lines.now) id text code
        × (answer.new.text.items ≡ answer.old.text.items ++ text) × (answer.new.status ≡ max answer.old.status code)) }
{
    if scope.ids.contains(id) {
        return append_candidate_lines(alloc, lookups, scope, lines, id, answer);
    }
    append_non_candidate_lines(alloc, lookups, scope, lines, id, answer)
}

// Adds to the answer the facts of an id that is no candidate of this scope, as they would be if it were one, and what
// `lines` say about the id.
fn append_non_candidate_lines<'a>(
    alloc: Global,
    lookups: &Lookups<'a>,
    scope: &Scope<'_, 'a>,
    lines: &[ReportLine],
    id: Id,
    answer: &mut WhyAnswer,
) -> Result<(), AllocError>
    ensures { OnOk result ((text : AText) × (code : ℕ)
        × IsToldOf (among lookups.now.global.now lookups.now.zone.now scope.now.ids.now scope.now.bypass.now id)
        (map line_view lines.now) id text code
        × (answer.new.text.items ≡ answer.old.text.items ++ text) × (answer.new.status ≡ max answer.old.status code)) }
{
    let mut ids = scope.ids.try_clone(alloc)?;
    ids.insert(id)?;
    let vers = counting_vers(alloc, lookups.global, lookups.zone, &ids)?;
    let dels = deletions(alloc, &vers, ids.as_slice())?;
    let with_id = Scope {
        vers: &vers,
        zone: lookups.zone,
        ids: &ids,
        dels: dels.as_slice(),
        bypass: scope.bypass,
    };
    append_candidate_lines(alloc, lookups, &with_id, lines, id, answer)
}

// Adds to the answer the facts of a candidate of this scope, and what `lines` say about the candidate.
fn append_candidate_lines<'a>(
    alloc: Global,
    lookups: &Lookups<'a>,
    scope: &Scope<'_, 'a>,
    lines: &[ReportLine],
    id: Id,
    answer: &mut WhyAnswer,
) -> Result<(), AllocError>
    requires global { scope.now.vers.now.global.now ≡ lookups.now.global.now }
    requires zone { scope.now.zone.now ≡ lookups.now.zone.now }
    requires srel { scope.now.vers.now.srel ≡ scope.now.zone.now.srel }
    requires number { number_in scope.now.vers.now id
        ≡ place scope.now.vers.now.global.now scope.now.zone.now scope.now.ids.now id + 1 }
    ensures { OnOk result ((text : AText) × (code : ℕ)
        × IsToldOf (setting_of scope.now) (map line_view lines.now) id text code
        × (answer.new.text.items ≡ answer.old.text.items ++ text) × (answer.new.status ≡ max answer.old.status code)) }
{
    let facts = id_facts(alloc, lookups, scope, id)?;
    let conflicts = conflicts_of(alloc, scope, lines, id)?;
    let verdict_facts = VerdictFacts {
        bypass: scope.bypass,
        facts: facts.as_slice(),
        conflicts: conflicts.as_slice(),
        lines,
    };
    answer.status = answer.status.max(facts_code(verdict_facts.facts));
    append_facts(verdict_facts.facts, &mut answer.text)?;
    append_verdict(id, &verdict_facts, &mut answer.text)
}

// The lines of an APPLY or ACCEPT by this selection. No line contains the date, so any date will do.
fn install_lines(
    alloc: Global,
    lookups: &Lookups<'_>,
    related: Option<&Zone>,
    selection: &Selection,
    bypass: &Bypass,
) -> Result<Vec<ReportLine>, AllocError>
    ensures { IfOk result (λ lines. (date : AText) × (new : AZone) × InstallsSelected lookups.now.global.now
        lookups.now.zone.now (option_copied related.entry) selection.now bypass.now date new
        (map line_view lines.items)) }
{
    let date = YyDdd::new(ANY_YEAR, ANY_DAY);
    let InstallChange { delta, lines } = apply(
        alloc,
        lookups.global,
        lookups.zone,
        related,
        selection,
        bypass,
        date,
    )?;
    // The contract needs this: the edits of the delta have the form of edits, so they turn this zone into a new one.
    delta.attest();
    Ok(lines)
}

// The selection of these ids by SELECT, with GROUPEXTEND or without.
fn selection_of_ids(alloc: Global, ids: &[Id], groupextend: bool) -> Result<Selection, AllocError>
    ensures { IfOk result (Selects ids.now groupextend) }
{
    let select = IdList::from_vec(Vec::from_slice(alloc, ids)?);
    let exclude = IdList::new(alloc);
    let sourceid = SourceList::new(alloc);
    let forfmid = IdList::new(alloc);
    let group = IdList::new(alloc);
    Ok(Selection {
        functions: false,
        ptfs: false,
        apars: false,
        usermods: false,
        select,
        exclude,
        sourceid,
        forfmid,
        group,
        groupextend,
    })
}

// The refusal that SET prints if no zone has the name, with its status. `report` writes this line only as part of an
// outcome, so its code is spelled here too. The clause says that the two lines are the same.
fn refuse_unknown_zone(alloc: Global) -> Result<WhyAnswer, AllocError>
    ensures { IfOk result (λ answer. (answer.text.items ≡ refused_text NoZone) × (answer.status ≡ 12)) }
{
    let mut text = Vec::new(alloc);
    append_words(b"REFUSED", &[LineWord::Text(b"Cm2")], &mut text)?;
    Ok(WhyAnswer {
        text,
        status: REFUSED_STATUS,
    })
}
