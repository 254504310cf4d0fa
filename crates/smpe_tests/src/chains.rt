//! Chains of 5,000 SYSMODs, which are received, applied and listed without a walk that takes more and more stack.

use crate::generated::run_job;
use scripts::{append_cards, card_file};
use smpe_play::{FAILING, JobStep, Plays, RECEIVE, StepPlace, play_made};
use sqlite::Alter;
use std::alloc::Global;
use std::test::Fail;
use store::Store;

/// How many PTFs a chain has.
const LEN: u32 = 5_000;

/// How the PTFs of a chain name each other.
#[derive(Clone, Copy)]
enum Chain {
    /// Each has the one before it as PRE.
    Back,
    /// Each has the next one as REQ, and the last one the first.
    Circle,
    /// Each has the next one as PRE, and the last one an id that is not received.
    Open,
}

// The `++VER` of the PTF of this number.
fn ptf_ver(alloc: Global, chain: Chain, number: u32) -> Result<String, Fail> {
    let (operand, other) = match (chain, number) {
        (Chain::Back, 1) => return Ok(format!(in alloc; "++VER(Z038) FMID(HAA1100).")?),
        (Chain::Back, _) => ("PRE", number.saturating_sub(1)),
        (Chain::Circle, LEN) => ("REQ", 1),
        (Chain::Circle, _) => ("REQ", number.saturating_add(1)),
        (Chain::Open, _) => ("PRE", number.saturating_add(1)),
    };
    Ok(format!(in alloc; "++VER(Z038) FMID(HAA1100) {operand}(UB{other:05}).")?)
}

// Appends the PTF of this number.
fn append_ptf(alloc: Global, bytes: &mut Vec<u8>, chain: Chain, number: u32) -> Result<(), Fail> {
    let ver = ptf_ver(alloc, chain, number)?;
    let cards = format!(in alloc; "++PTF(UB{number:05}).\n{ver}")?;
    append_cards(bytes, cards.as_str())
}

// The PTFs of a chain, from this number on.
fn chain_from(alloc: Global, chain: Chain, first: u32) -> Result<Vec<u8>, Fail> {
    let mut bytes = Vec::new(alloc);
    for number in first..=LEN {
        append_ptf(alloc, &mut bytes, chain, number)?;
    }
    Ok(bytes)
}

/// What is said about each PTF.
#[derive(Clone, Copy)]
enum Said {
    Received,
    Applied,
    /// The first one is held, and all others need the one before them.
    HeldFirst,
    /// All need the next one.
    OpenEnd,
}

// The lines of a report about the PTF of this number.
fn ptf_lines(alloc: Global, said: Said, number: u32) -> Result<String, Fail> {
    let (needed, causer) = match (said, number) {
        (Said::Received, _) => return Ok(format!(in alloc; "UB{number:05} PTF      RECEIVED\n")?),
        (Said::Applied, _) => return Ok(format!(in alloc; "UB{number:05} PTF      APPLIED\n")?),
        (Said::HeldFirst, 1) => {
            let text = "UB00001 PTF      FAILED\n  TEST J2\n  CAUSER UB00001\n";
            return Ok(String::from_str(alloc, text)?);
        }
        (Said::HeldFirst, _) => (number.saturating_sub(1), 1),
        (Said::OpenEnd, _) => (number.saturating_add(1), LEN),
    };
    Ok(format!(in alloc;
        "UB{number:05} PTF      FAILED\n  NEED PRE UB{needed:05}\n  CAUSER UB{causer:05}\n"
    )?)
}

// A report of these first lines, of lines for each PTF from this number on, and of these last lines.
fn chain_report(
    alloc: Global,
    front: &str,
    said: Said,
    first: u32,
    back: &str,
) -> Result<String, Fail> {
    let mut text = String::new(alloc);
    text.push_str(front)?;
    for number in first..=LEN {
        text.push_str(ptf_lines(alloc, said, number)?.as_str())?;
    }
    text.push_str(back)?;
    Ok(text)
}

/// A chain that is received with a hold file, and what an APPLY makes of it.
#[derive(Clone, Copy)]
struct Links {
    /// What is so, in the words of a failure.
    shows: &'static str,
    chain: Chain,
    hold: &'static str,
    held: &'static str,
    apply: &'static str,
    said: Said,
    code: &'static str,
}

const BROUGHT_IN: Links = Links {
    shows: "all PTFs come in with the last one of a chain by PRE, and are applied",
    chain: Chain::Back,
    hold: "",
    held: "RC 00\n",
    apply: "SET BDY(TGT1).\nAPPLY SELECT(UB05000) GROUPEXTEND.",
    said: Said::Applied,
    code: "RC 00\n",
};

const HELD: Links = Links {
    shows: "one hold keeps a whole chain off, and causes each failure",
    hold: "++HOLD(UB00001) USER FMID(HAA1100) REASON(WAIT).",
    held: "UB00001 USER     HELD WAIT\nRC 00\n",
    said: Said::HeldFirst,
    code: "RC 08\n",
    ..BROUGHT_IN
};

const CIRCLE: Links = Links {
    shows: "a circle by REQ is applied",
    chain: Chain::Circle,
    ..BROUGHT_IN
};

const OPEN: Links = Links {
    shows: "a whole chain fails where what the last one needs is not there",
    chain: Chain::Open,
    apply: "SET BDY(TGT1).\nAPPLY SELECT(UB00001) GROUPEXTEND.",
    said: Said::OpenEnd,
    code: "RC 08\n",
    ..BROUGHT_IN
};

const CHAINS: &[Links] = &[BROUGHT_IN, HELD, CIRCLE, OPEN];

const RECEIVED: &str = "SET GLOBAL\nRC 00\nRECEIVE GLOBAL\n";

// Receives a chain over a store in which the function is applied.
fn receive_chain<S: Alter>(alloc: Global, store: &mut Store<S>, links: Links) -> Result<(), Fail> {
    let ptfs = chain_from(alloc, links.chain, 1)?;
    let hold = card_file(alloc, links.hold)?;
    let wanted = chain_report(alloc, RECEIVED, Said::Received, 1, links.held)?;
    let (name, cntl) = (links.shows, "SET BDY(GLOBAL).\nRECEIVE.");
    let (ptfs, hold, wanted) = (ptfs.as_slice(), hold.as_slice(), wanted.as_str());
    run_job(alloc, store, name, cntl, ptfs, hold, wanted)
}

// Applies the chain, over the store in which it was received.
fn apply_chain<S: Alter>(alloc: Global, store: &mut Store<S>, links: Links) -> Result<(), Fail> {
    let front = "SET TGT1\nRC 00\nAPPLY TGT1\n";
    let wanted = chain_report(alloc, front, links.said, 1, links.code)?;
    let (name, cntl, wanted) = (links.shows, links.apply, wanted.as_str());
    run_job(alloc, store, name, cntl, b"", b"", wanted)
}

/// A job of a chain.
#[derive(Clone, Copy)]
enum LinksJob {
    Receive(Links),
    Apply(Links),
}

impl Plays for LinksJob {
    fn play_at<S: Alter>(
        &self,
        alloc: Global,
        store: &mut Store<S>,
        _place: StepPlace,
    ) -> Result<(), Fail> {
        match *self {
            LinksJob::Receive(links) => receive_chain(alloc, store, links),
            LinksJob::Apply(links) => apply_chain(alloc, store, links),
        }
    }
}

#[test]
fn chains_of_thousands_are_applied_or_fail_as_a_whole(rt: HostRuntime) -> Result<(), Fail> {
    for links in CHAINS {
        let jobs = [LinksJob::Receive(*links), LinksJob::Apply(*links)];
        play_made(rt.alloc(), &jobs, links.shows)?;
    }
    Ok(())
}

const CLOSING: JobStep = JobStep {
    name: "the first PTF of a chain comes in and would close it",
    cntl: RECEIVE,
    ptfin: &["++PTF(UB00001).\n++VER(Z038) FMID(HAA1100) PRE(UB05000)."],
    report: "SET GLOBAL\nRC 00\nRECEIVE GLOBAL\nUB00001 PTF      REFUSED Rc2\nRC 08\n",
    ..FAILING
};

/// All but the first PTF of a chain come in, and then the first, which would close a loop.
#[derive(Clone, Copy)]
enum LoopJob {
    AllButFirst,
    First,
}

// Receives all but the first PTF of a chain.
fn receive_all_but_first<S: Alter>(alloc: Global, store: &mut Store<S>) -> Result<(), Fail> {
    let ptfs = chain_from(alloc, Chain::Back, 2)?;
    let wanted = chain_report(alloc, RECEIVED, Said::Received, 2, "RC 00\n")?;
    let (ptfs, wanted) = (ptfs.as_slice(), wanted.as_str());
    run_job(alloc, store, "the chain", RECEIVE, ptfs, b"", wanted)
}

impl Plays for LoopJob {
    fn play_at<S: Alter>(
        &self,
        alloc: Global,
        store: &mut Store<S>,
        place: StepPlace,
    ) -> Result<(), Fail> {
        match self {
            LoopJob::AllButFirst => receive_all_but_first(alloc, store),
            LoopJob::First => CLOSING.play_at(alloc, store, place),
        }
    }
}

#[test]
fn a_chain_of_thousands_is_not_closed(rt: HostRuntime) -> Result<(), Fail> {
    let jobs = [LoopJob::AllButFirst, LoopJob::First];
    play_made(rt.alloc(), &jobs, "a chain that would close")
}
