//! A list that is too long, and a zone of 1,000 entries and 1,000 elements, in which one PTF changes one row.

use crate::generated::run_job;
use scripts::{append_cards, card_file};
use smpe_play::{
    JOB, JobStep, Plays, RECEIVE, RECEIVING, RowsLeft, StepPlace, play_made, play_rows,
};
use sqlite::Alter;
use std::alloc::Global;
use std::test::Fail;
use store::Store;

// Appends so many ids, a card each.
fn append_ids(alloc: Global, bytes: &mut Vec<u8>, count: u32) -> Result<(), Fail> {
    for number in 1..=count {
        append_cards(bytes, format!(in alloc; "UB{number:05}")?.as_str())?;
    }
    Ok(())
}

// A PTF whose `++VER` is good except for its PRE of 1,001 ids.
fn ptf_with_long_list(alloc: Global) -> Result<Vec<u8>, Fail> {
    let mut bytes = card_file(alloc, "++PTF(UA00001).\n++VER(Z038) FMID(HAA1100) PRE(")?;
    append_ids(alloc, &mut bytes, 1_001)?;
    append_cards(&mut bytes, ").")?;
    Ok(bytes)
}

/// A list of 1,001 ids comes in.
#[derive(Clone, Copy)]
struct LongList;

impl Plays for LongList {
    fn play_at<S: Alter>(
        &self,
        alloc: Global,
        store: &mut Store<S>,
        _place: StepPlace,
    ) -> Result<(), Fail> {
        let ptfin = ptf_with_long_list(alloc)?;
        let wanted = "SET GLOBAL\nRC 00\nRECEIVE GLOBAL\nREFUSED Cm4 RECORD 2 Mc6\nRC 12\n";
        let (name, ptfin) = ("a list of 1,001 ids", ptfin.as_slice());
        run_job(alloc, store, name, RECEIVE, ptfin, b"", wanted)
    }
}

#[test]
fn a_list_of_too_many_ids_is_refused(rt: HostRuntime) -> Result<(), Fail> {
    play_made(rt.alloc(), &[LongList], "a list of 1,001 ids is refused")
}

// Appends a data element and its record.
fn append_element(alloc: Global, bytes: &mut Vec<u8>, number: u32) -> Result<(), Fail> {
    let cards = format!(in alloc;
        "++DATA(N{number:05}) DISTLIB(ADATA) SYSLIB(DATA).\nRECORD OF N{number:05}"
    )?;
    append_cards(bytes, cards.as_str())
}

// Appends a PTF for the function.
fn append_ptf(alloc: Global, bytes: &mut Vec<u8>, number: u32) -> Result<(), Fail> {
    let cards = format!(in alloc; "++PTF(UC{number:05}).\n++VER(Z038) FMID(HBB1100).")?;
    append_cards(bytes, cards.as_str())
}

// A function with 999 data elements, and 998 PTFs for it.
fn many_sysmods(alloc: Global) -> Result<Vec<u8>, Fail> {
    let mut bytes = card_file(alloc, "++FUNCTION(HBB1100).\n++VER(Z038).")?;
    for number in 1..=999u32 {
        append_element(alloc, &mut bytes, number)?;
    }
    for number in 1..=998u32 {
        append_ptf(alloc, &mut bytes, number)?;
    }
    Ok(bytes)
}

// A report of these first lines, and what is said about each PTF.
fn many_report(alloc: Global, front: &str, word: &str) -> Result<String, Fail> {
    let mut text = String::new(alloc);
    text.push_str(front)?;
    for number in 1..=998u32 {
        text.push_str(format!(in alloc; "UC{number:05} PTF      {word}\n")?.as_str())?;
    }
    text.push_str("RC 00\n")?;
    Ok(text)
}

// Receives the function and its PTFs.
fn receive_many<S: Alter>(alloc: Global, store: &mut Store<S>) -> Result<(), Fail> {
    let ptfin = many_sysmods(alloc)?;
    let front = "SET GLOBAL\nRC 00\nRECEIVE GLOBAL\nHBB1100 FUNCTION RECEIVED\n";
    let wanted = many_report(alloc, front, "RECEIVED")?;
    let (ptfin, wanted) = (ptfin.as_slice(), wanted.as_str());
    run_job(alloc, store, "all come in", RECEIVE, ptfin, b"", wanted)
}

// Applies the function and its PTFs.
fn apply_many<S: Alter>(alloc: Global, store: &mut Store<S>) -> Result<(), Fail> {
    let front = "SET TGT1\nRC 00\nAPPLY TGT1\nHBB1100 FUNCTION APPLIED\n";
    let wanted = many_report(alloc, front, "APPLIED")?;
    let cntl = "SET BDY(TGT1).\nAPPLY FUNCTIONS PTFS.";
    let (name, wanted) = ("all are applied", wanted.as_str());
    run_job(alloc, store, name, cntl, b"", b"", wanted)
}

/// What stands in each row of the entries and of the elements.
const ROWS: [&str; 2] = [
    "SELECT zone || '/' || id || '/' || ifnull(date, '-') || '/' || supby || '/' || ifnull(delby, '-') || '/' || \
        waived FROM entry ORDER BY zone, id",
    "SELECT zone || '/' || type || '/' || name || '/' || fmid || '/' || rmid || '/' || umid || '/' || distlib || '/' \
        || syslib || '/' || hex(text) FROM zelem ORDER BY zone, type, name",
];

// Appends the bytes of the card of this text in hexadecimal, as `hex` gives them.
fn append_hex_card(alloc: Global, text: &mut String, card: &str) -> Result<(), Fail> {
    for byte in card_file(alloc, card)? {
        text.push_str(format!(in alloc; "{byte:02X}")?.as_str())?;
    }
    Ok(())
}

// Appends the row of a data element.
fn append_element_row(alloc: Global, text: &mut String, number: u32) -> Result<(), Fail> {
    text.push_str(format!(in alloc;
        "TGT1/DATA/N{number:05}/HBB1100/HBB1100//ADATA/DATA/"
    )?.as_str())?;
    append_hex_card(
        alloc,
        text,
        format!(in alloc; "RECORD OF N{number:05}")?.as_str(),
    )?;
    text.push_str("\n")?;
    Ok(())
}

// Appends the row of the macro that the first function brought in.
fn append_macro_row(alloc: Global, text: &mut String) -> Result<(), Fail> {
    text.push_str("TGT1/MAC/M1/HAA1100/HAA1100//AMACLIB/MACLIB/")?;
    append_hex_card(alloc, text, "         MACRO\t00000010")?;
    append_hex_card(alloc, text, "         MEND\t00000020")?;
    text.push_str("\n")?;
    Ok(())
}

// The rows of a zone with so many of the PTFs.
fn zone_rows(alloc: Global, ptfs: u32) -> Result<String, Fail> {
    let mut text = String::new(alloc);
    text.push_str("TGT1/HAA1100/24.138//-/\nTGT1/HBB1100/24.138//-/\n")?;
    for number in 1..=ptfs {
        text.push_str(format!(in alloc; "TGT1/UC{number:05}/24.138//-/\n")?.as_str())?;
    }
    text.push_str("--\n")?;
    for number in 1..=999u32 {
        append_element_row(alloc, &mut text, number)?;
    }
    append_macro_row(alloc, &mut text)?;
    text.push_str("--\n")?;
    Ok(text)
}

const ONE_RECEIVED: JobStep = JobStep {
    name: "one PTF more comes in",
    ptfin: &["++PTF(UC00999).\n++VER(Z038) FMID(HBB1100)."],
    report: "SET GLOBAL\nRC 00\nRECEIVE GLOBAL\nUC00999 PTF      RECEIVED\nRC 00\n",
    ..RECEIVING
};

const ONE_INSTALLED: JobStep = JobStep {
    name: "one PTF more is applied",
    cntl: "SET BDY(TGT1).\nAPPLY PTFS.",
    report: "SET TGT1\nRC 00\nAPPLY TGT1\nUC00999 PTF      APPLIED\nRC 00\n",
    ..JOB
};

/// A job over the zone.
#[derive(Clone, Copy)]
enum ZoneJob {
    ReceiveMany,
    ApplyMany,
    Step(&'static JobStep),
}

impl Plays for ZoneJob {
    fn play_at<S: Alter>(
        &self,
        alloc: Global,
        store: &mut Store<S>,
        place: StepPlace,
    ) -> Result<(), Fail> {
        match self {
            ZoneJob::ReceiveMany => receive_many(alloc, store),
            ZoneJob::ApplyMany => apply_many(alloc, store),
            ZoneJob::Step(step) => step.play_at(alloc, store, place),
        }
    }
}

#[test]
fn one_ptf_among_a_thousand_is_added_alone(rt: HostRuntime) -> Result<(), Fail> {
    let jobs = [
        ZoneJob::ReceiveMany,
        ZoneJob::ApplyMany,
        ZoneJob::Step(&ONE_RECEIVED),
        ZoneJob::Step(&ONE_INSTALLED),
    ];
    let rows = zone_rows(rt.alloc(), 999)?;
    let (queries, wanted) = (ROWS.as_slice(), rows.as_str());
    let shows = "one PTF more in a zone of 1,000 entries and 1,000 elements";
    play_rows(rt.alloc(), &jobs, shows, RowsLeft { queries, wanted })
}
