//! What a SYSMOD names, and how parts of another one change it.

use crate::ptfin::print_sysmod;
use crate::row_text::RowText;
use crate::values::read_id;
use fields::spelling::read_type;
use fields::{Name, Source, Srel};
use mcs::{Item, read_ptfin};
use std::alloc::Global;
use std::test::Fail;
use sysmods_values::{Sysmod, Ver};

/// The answer to a question about the first of the file's two SYSMODs, or the first SYSMOD after a change: a part of
/// the second one or a source is added to it, or its holds are removed.
pub(crate) fn read_sysmod(alloc: Global, file: &[u8], action: &str) -> Result<RowText, Fail> {
    let (mut sysmod, mut other) = last_two_sysmods(alloc, file)?;
    let mut out = RowText::new();
    match action.split_once(' ') {
        Some((word, names)) => answer_question(alloc, &sysmod, word, names, &mut out)?,
        None => {
            change_sysmod(alloc, &mut sysmod, &mut other, action, &mut out)?;
            print_sysmod(&mut out, &sysmod);
        }
    }
    Ok(out)
}

// The last two SYSMODs of the file.
fn last_two_sysmods(alloc: Global, file: &[u8]) -> Result<(Sysmod, Sysmod), Fail> {
    let mut items = read_ptfin(alloc, file)?;
    let second = items.pop();
    match (items.pop(), second) {
        (Some(Item::Sysmod(first)), Some(Item::Sysmod(second))) => Ok((first, second)),
        _ => Err(Fail::from("not two SYSMODs")),
    }
}

// Removes and returns the last `++VER` of the SYSMOD.
fn remove_ver(sysmod: &mut Sysmod) -> Result<Ver, &'static str> {
    sysmod.vers.pop().ok_or("no ++VER")
}

// Moves the last `++IF` of this `++VER` into the first `++VER` of the SYSMOD.
fn move_condition(sysmod: &mut Sysmod, mut ver: Ver) -> Result<(), Fail> {
    let condition = ver.ifs.pop().ok_or("no ++IF")?;
    Ok(sysmod.push_if(0, condition)?)
}

// Moves the last element statement of the other SYSMOD into this one.
fn move_element(sysmod: &mut Sysmod, other: &mut Sysmod) -> Result<(), Fail> {
    match other.changes.pop() {
        Some(change) => Ok(sysmod.insert_change(change)?),
        None => Err(Fail::from("no element")),
    }
}

// Adds a part of the other SYSMOD or a source to this one, or removes the holds of this one. Appends the number that
// the call returns, or that of the sources.
fn change_sysmod(
    alloc: Global,
    sysmod: &mut Sysmod,
    other: &mut Sysmod,
    action: &str,
    out: &mut RowText,
) -> Result<(), Fail> {
    match action.as_bytes() {
        b"VER" => out.print_number(sysmod.insert_ver(remove_ver(other)?)?),
        b"IF" => move_condition(sysmod, remove_ver(other)?)?,
        b"ELEMENT" => move_element(sysmod, other)?,
        b"SOURCE" => {
            sysmod.insert_source(Source::read(b"RSU2404").ok_or("no source")?)?;
            out.print_number(sysmod.sources.len());
        }
        b"HOLDS" => out.print_number(sysmod.take_holds(alloc).len()),
        _ => return Err(Fail::from("no change has this name")),
    }
    out.print(b" ");
    Ok(())
}

// Appends whether the SYSMOD names an id or has an element statement, or which ids it names.
fn answer_question(
    alloc: Global,
    sysmod: &Sysmod,
    word: &str,
    names: &str,
    out: &mut RowText,
) -> Result<(), Fail> {
    match word.as_bytes() {
        b"NAMES" => {
            let id = read_id(names)?;
            out.print_if(sysmod.names(id), b" names");
            out.print_if(sysmod.names_function(id), b" as function");
            out.print_if(sysmod.supersedes(id), b" supersedes");
        }
        b"NAMED" => print_named(alloc, sysmod, names, out)?,
        b"FOR" => {
            let (srel, id) = names.split_once(' ').ok_or("no id")?;
            let srel = Srel::read(srel.as_bytes()).ok_or("no SREL")?;
            out.print_if(sysmod.names_for(srel, read_id(id)?), b"names");
        }
        _ => {
            let elem_type = read_type(word.as_bytes()).ok_or("no type")?;
            let name = Name::read(names.as_bytes()).ok_or("no name")?;
            out.print_if(sysmod.has_change(elem_type, name), b"has");
        }
    }
    Ok(())
}

// Appends the ids that the SYSMOD names for the SREL.
fn print_named(alloc: Global, sysmod: &Sysmod, srel: &str, out: &mut RowText) -> Result<(), Fail> {
    let srel = Srel::read(srel.as_bytes()).ok_or("no SREL")?;
    let mut found = Vec::new(alloc);
    sysmod.append_named(srel, &mut found)?;
    out.print_ids(found.as_slice());
    Ok(())
}
