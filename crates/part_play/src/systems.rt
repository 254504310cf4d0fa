//! Systems of numbers: the greatest set that supports itself, and the causers of failures. A system is a letter for
//! each candidate, which says whether it is eligible (`T` or `F`), and its needs, as `0<1,2` if 0 needs 1 or 2.

use crate::row_text::RowText;
use crate::rules::least_set;
use itoa::Buffer;
use scripts::split_at_first;
use solve::{Kept, Need, Solver, Sweep, System, SystemError, Worklist, causers};
use std::alloc::Global;
use std::test::Fail;

/// What the reader with this name finds in the system.
pub(crate) fn read_system(alloc: Global, reader: &str, text: &str) -> Result<RowText, Fail> {
    match reader.as_bytes() {
        b"SOLVE" => solve_text(alloc, text),
        b"CHAIN" => solve_chain(alloc, text),
        b"WHOLE" => need_count(alloc, text),
        b"OTHER" => causers_for_other(alloc, text),
        b"RULES" => least_set(alloc, text),
        _ => Err(Fail::from("no system has this name")),
    }
}

/// A flag for each letter, which is set for a `T`.
pub(crate) fn parse_flags(alloc: Global, letters: &str) -> Result<Vec<bool>, Fail> {
    let mut flags = Vec::new(alloc);
    for letter in letters.as_bytes() {
        flags.push(*letter == b'T')?;
    }
    Ok(flags)
}

/// Appends a letter for each flag.
pub(crate) fn print_flags(out: &mut RowText, flags: &[bool]) {
    for flag in flags {
        out.print_flag(*flag);
    }
}

/// The numbers of the text, which commas separate. An empty text has none.
pub(crate) fn parse_numbers(alloc: Global, text: &str) -> Result<Vec<u32>, Fail> {
    let mut numbers = Vec::new(alloc);
    for word in text.split(',') {
        if !word.is_empty() {
            numbers.push(word.parse::<u32>()?)?;
        }
    }
    Ok(numbers)
}

// The need that the word spells, as `0<1,2`.
fn parse_need(alloc: Global, word: &str) -> Result<Need, Fail> {
    let (of, any) = word.split_once('<').ok_or("no need")?;
    let of: u32 = of.parse()?;
    let any = parse_numbers(alloc, any)?;
    Ok(Need { of, any })
}

// Adds the need, which must be about candidates of the system.
fn add_need(system: &mut System, need: Need) -> Result<(), Fail> {
    if !system.admits(need.of, need.any.as_slice()) {
        return Err(Fail::from("a need that is not admitted"));
    }
    Ok(system.add_need(need)?)
}

// The system that the text spells. Candidates and needs are added to it one by one.
fn parse_system(alloc: Global, text: &str) -> Result<System, Fail> {
    let (letters, needs) = split_at_first(text, " ");
    let mut system = System::new(alloc, Vec::new(alloc))?;
    for letter in letters.as_bytes() {
        system.add_candidate(*letter == b'T')?;
    }
    for word in needs.split_whitespace() {
        add_need(&mut system, parse_need(alloc, word)?)?;
    }
    Ok(system)
}

// Which candidates are kept, how many strikes that takes, and the causers of each.
fn solve_text(alloc: Global, text: &str) -> Result<RowText, Fail> {
    let system = parse_system(alloc, text)?;
    let mut out = RowText::new();
    let (kept, strikes) = solve_twice(alloc, &system, &mut out)?;
    print_flags(&mut out, kept.flags());
    print_strikes(&mut out, strikes);
    print_causers(alloc, &system, &kept, &mut out)?;
    Ok(out)
}

// Which candidates the work list keeps, and its strikes. Appends a remark if the sweep keeps others.
fn solve_twice(alloc: Global, system: &System, out: &mut RowText) -> Result<(Kept, u128), Fail> {
    let swept = Sweep.greatest(alloc, system)?;
    let (kept, count) = Worklist::count(alloc, system)?;
    out.print_if(swept.flags() != kept.flags(), b"SWEEP DIFFERS ");
    Ok((kept, count.strikes))
}

fn print_strikes(out: &mut RowText, strikes: u128) {
    out.print(b" ");
    out.print(Buffer::new().format(strikes).as_bytes());
}

// Appends the causers of each candidate, between a blank and a slash.
fn print_causers(
    alloc: Global,
    system: &System,
    kept: &Kept,
    out: &mut RowText,
) -> Result<(), Fail> {
    for row in causers(alloc, system, kept)? {
        out.print(b" ");
        for causer in row.iter() {
            out.print_number(*causer as usize);
            out.print(b",");
        }
        out.print(b"/");
    }
    Ok(())
}

// How many candidates the second system has, a letter for each of them and for the number after them that says whether
// it is kept, and the causers in the first system if the candidates that the second one keeps are kept there.
fn causers_for_other(alloc: Global, text: &str) -> Result<RowText, Fail> {
    let (first, second) = text.split_once('/').ok_or("two systems")?;
    let kept = Sweep.greatest(alloc, &parse_system(alloc, second.trim())?)?;
    let mut out = RowText::new();
    out.print_number(kept.size() as usize);
    out.print(b" ");
    for number in 0..=kept.size() {
        out.print_flag(kept.contains(number));
    }
    let system = parse_system(alloc, first.trim())?;
    print_causers(alloc, &system, &kept, &mut out)?;
    Ok(out)
}

// The needs of a chain: each candidate needs the next one, up to the candidate with the number `last`.
fn chain_needs(alloc: Global, last: u32) -> Result<Vec<Need>, Fail> {
    let mut needs = Vec::new(alloc);
    for of in 0..last {
        let any = [of + 1].to_vec(alloc)?;
        needs.push(Need { of, any })?;
    }
    Ok(needs)
}

// Appends the needs that these words spell.
fn append_needs(alloc: Global, words: &str, needs: &mut Vec<Need>) -> Result<(), Fail> {
    for word in words.split_whitespace() {
        needs.push(parse_need(alloc, word)?)?;
    }
    Ok(())
}

// How many candidates of a chain are kept, and how many strikes that takes. The text has the number of the last
// candidate, the letter that says whether it is eligible, and any further needs. All other candidates are eligible.
fn solve_chain(alloc: Global, text: &str) -> Result<RowText, Fail> {
    let (last, more) = split_at_first(text, " ");
    let (letter, more) = split_at_first(more, " ");
    let last: u32 = last.parse()?;
    let mut eligible = vec![in alloc; true; last as usize]?;
    eligible.push(letter == "T")?;
    let mut needs = chain_needs(alloc, last)?;
    append_needs(alloc, more, &mut needs)?;
    let system = System::from_needs(eligible, needs)?;
    let mut out = RowText::new();
    let (kept, strikes) = solve_twice(alloc, &system, &mut out)?;
    out.print_number(kept.flags().iter().filter(|flag| **flag).count());
    print_strikes(&mut out, strikes);
    Ok(out)
}

// Makes a system from all of its needs at once. How many needs it has, or why it cannot be made.
fn need_count(alloc: Global, text: &str) -> Result<RowText, Fail> {
    let (letters, words) = split_at_first(text, " ");
    let mut needs = Vec::new(alloc);
    append_needs(alloc, words, &mut needs)?;
    let mut out = RowText::new();
    match System::from_needs(parse_flags(alloc, letters)?, needs) {
        Ok(system) => out.print_number(system.needs().len()),
        Err(SystemError::BadNeed) => out.print(b"bad need"),
        Err(error) => return Err(Fail::from(error)),
    }
    Ok(out)
}
