//! Playing scripts.

use crate::compared::{Difference, first_difference};
use crate::step::ScriptStep;
use std::alloc::Global;
use std::io::Read;
use std::test::Fail;

/// What performs the steps of a script.
pub trait Performs {
    /// Begins a case, and drops what is left of the case before it.
    fn begin(&mut self, alloc: Global) -> Result<(), Fail>;

    /// Performs a step, and appends what it prints.
    fn perform(
        &mut self,
        alloc: Global,
        step: ScriptStep<'_>,
        printed: &mut Vec<u8>,
    ) -> Result<(), Fail>;
}

/// How many steps were played, and a line for each that did not print what it must.
#[derive(Drop)]
pub struct Played {
    pub steps: usize,
    pub differences: String,
}

/// Plays the script from standard input, and prints the differences and how many steps it has.
pub fn play_input<P: Performs>(rt: &HostRuntime, performer: &mut P) -> Result<(), Fail> {
    let alloc = rt.alloc();
    let mut script = Vec::new(alloc);
    rt.reader().read_to_end(&mut script)?;
    let script = std::str::from_utf8(script.as_slice())?;
    let Played { steps, differences } = play(alloc, script, performer)?;
    println!(rt; "{differences}{steps} steps")?;
    Ok(())
}

/// Plays the cases of a script.
pub fn play<P: Performs>(alloc: Global, script: &str, performer: &mut P) -> Result<Played, Fail> {
    let mut played = Played {
        steps: 0,
        differences: String::new(alloc),
    };
    let mut cases = script.split("\n* ");
    let _explanation = cases.next();
    for case in cases {
        play_case(alloc, case, performer, &mut played)?;
    }
    Ok(played)
}

// Plays the steps of a case, whose first line says what it shows.
fn play_case<P: Performs>(
    alloc: Global,
    case: &str,
    performer: &mut P,
    played: &mut Played,
) -> Result<(), Fail> {
    performer.begin(alloc)?;
    let mut steps = case.split("\n> ");
    let shows = steps.next().unwrap_or("");
    for text in steps {
        play_step(alloc, shows, ScriptStep { text }, performer, played)?;
    }
    Ok(())
}

// Plays a step, counts it, and appends a line if it prints something else than it must.
fn play_step<P: Performs>(
    alloc: Global,
    shows: &str,
    step: ScriptStep<'_>,
    performer: &mut P,
    played: &mut Played,
) -> Result<(), Fail> {
    let mut printed = Vec::new(alloc);
    performer.perform(alloc, step, &mut printed)?;
    played.steps = played.steps.saturating_add(1);
    let printed = std::str::from_utf8(printed.as_slice())?;
    append_difference(alloc, shows, step, printed, &mut played.differences)
}

// If the step had to print something else, appends a line that says where the two differ.
fn append_difference(
    alloc: Global,
    shows: &str,
    step: ScriptStep<'_>,
    printed: &str,
    differences: &mut String,
) -> Result<(), Fail> {
    let (printed, wanted) = (printed.trim_end_matches('\n'), step.part("PRINTS"));
    if printed == wanted {
        return Ok(());
    }
    let head = step.head();
    let Difference {
        number,
        got,
        wanted,
    } = first_difference(printed, wanted);
    let line = format!(in alloc;
        "{shows}: {head}: line {number}: got {got:?}, wanted {wanted:?}\n"
    )?;
    differences.push_str(line.as_str())?;
    Ok(())
}
