//! The source by which a command chooses the SYSMODs of a package.
ghost use Rattle.std.specs.Prelude.{◌≡◌, ◌++◌, not, length, codes, find, IfOk, IfSome};
ghost use Rattle.std.specs.List.{flat_map, list_any};
ghost use Rattle.std.specs.Str.{bytes_eq};
ghost use Rattle.terms.specs.Lookups.{is_in};
ghost use Rattle.smpe_package.specs.Package.{assign_to, gives, has_source, is_free, package_command};
ghost use Rattle.smpe_package.specs.Package.{package_sources, with_source};

use fields::{Source, SourceList};
use mcs::{Assign, Item};
use std::alloc::{AllocError, Global};
use sysmods::GlobalZone;
use sysmods_values::Sysmod;

/// The first of the sources `CHECK$1`, `CHECK$2` and `CHECK$3` that no item gives and no received SYSMOD has, or `None`
/// if there is none.
pub fn free_source(items: &[Item], global: &GlobalZone) -> Option<Source>
    ensures first { result ≡ find (λ x. is_free x items.now global.now.sysmods) package_sources }
    ensures short { IfSome result (λ x. length x ≡ 7) }
{
    let sources = package_sources();
    sources
        .iter()
        .copied()
        .find(|source| is_free(*source, items, global))
}

// The sources that are kept for checks.
fn package_sources() -> [Source; 3]
    ensures { result ≡ package_sources }
{
    [
        Source::read(b"CHECK$1").unwrap(),
        Source::read(b"CHECK$2").unwrap(),
        Source::read(b"CHECK$3").unwrap(),
    ]
}

// Whether no item gives the source and no received SYSMOD has it.
fn is_free(source: Source, items: &[Item], global: &GlobalZone) -> bool
    ensures { result ≡ is_free source items.now global.now.sysmods }
{
    !is_given(source, items) && !is_known(source, global)
}

// Whether one of the items gives the source.
fn is_given(source: Source, items: &[Item]) -> bool
    ensures { result ≡ list_any (gives source) items.now }
{
    items.iter().any(|item| gives(source, item))
}

// Whether the item gives the source to a SYSMOD.
fn gives(source: Source, item: &Item) -> bool
    ensures { result ≡ gives source item.now }
{
    match item {
        Item::Sysmod(sysmod) => has_source(source, sysmod),
        Item::Assign(assign) => assign.source.as_bytes() == source.as_bytes(),
    }
}

// Whether the SYSMOD has the source.
fn has_source(source: Source, sysmod: &Sysmod) -> bool
    ensures { result ≡ has_source source sysmod.now }
{
    is_among(source, &sysmod.sources)
}

// Whether the source is in the list.
fn is_among(source: Source, sources: &SourceList) -> bool
    ensures { result ≡ is_in sources.now source }
{
    sources
        .as_slice()
        .iter()
        .any(|other| source.as_bytes() == other.as_bytes())
}

// Whether a received SYSMOD has the source.
fn is_known(source: Source, global: &GlobalZone) -> bool
    ensures { result ≡ list_any (has_source source) global.now.sysmods }
{
    global.sysmods().any(|sysmod| has_source(source, sysmod))
}

/// The items, and after them an `++ASSIGN` of the source to each SYSMOD among them.
pub fn with_source(alloc: Global, items: Vec<Item>, source: Source) -> Result<Vec<Item>, AllocError>
    ensures { IfOk result (λ all. all.items ≡ with_source source items.items) }
{
    let mut assigns = assignments(alloc, items.as_slice(), source)?;
    let mut all = items;
    all.append(&mut assigns)?;
    Ok(all)
}

// An `++ASSIGN` of the source to each SYSMOD among the items.
fn assignments(alloc: Global, items: &[Item], source: Source) -> Result<Vec<Item>, AllocError>
    ensures { IfOk result (λ assigns. assigns.items ≡ flat_map (assign_to source) items.now) }
{
    let mut assigns = Vec::new(alloc);
    for item in items {
        push_assignment(alloc, item, source, &mut assigns)?;
    }
    Ok(assigns)
}

// Appends an `++ASSIGN` of the source to the item, if it is a SYSMOD.
fn push_assignment(
    alloc: Global,
    item: &Item,
    source: Source,
    assigns: &mut Vec<Item>,
) -> Result<(), AllocError>
    ensures { IfOk result (λ _. assigns.new.items ≡ assigns.old.items ++ assign_to source item.now) }
{
    let Item::Sysmod(sysmod) = item else {
        return Ok(());
    };
    let mut to = Vec::new(alloc);
    to.push(sysmod.id)?;
    assigns.push(Item::Assign(Assign { source, to }))?;
    Ok(())
}

/// The command that asks what APPLY would make of the SYSMODs that have the source, with all that GROUPEXTEND brings
/// in.
pub fn package_command(alloc: Global, source: Source) -> Result<Vec<u8>, AllocError>
    ensures { IfOk result (λ command. command.items ≡ package_command source) }
{
    let mut command = Vec::new(alloc);
    command.extend_from_slice(b"APPLY SOURCEID(")?;
    command.extend_from_slice(source.as_bytes())?;
    command.extend_from_slice(b") FUNCTIONS PTFS APARS USERMODS GROUPEXTEND CHECK.")?;
    Ok(command)
}
