//! What an entry says, by its keys.
ghost use Rattle.std.specs.Prelude.{◌≡◌, ◌++◌, IfOk, map, codes};
ghost use Rattle.intake_list.specs.Says.{has_value, values_under};
ghost use Rattle.intake_list.specs.Typed.{
  type_of,
  is_broken,
  values_under_either,
  needs_of,
  removals_of,
  others_of,
  level_of,
  libraries_of,
};

use crate::entry::ListEntry;
use crate::list_words::add_words;
use crate::says::{has_value, values_under};
use std::alloc::{AllocError, Global};
use std::marker::Model;
use terms::Kind;

/// The function of a SYSMOD, and its requisites.
#[derive(Drop)]
pub struct ListedNeeds<'a> {
    pub fmid: Vec<&'a [u8]>,
    pub pre: Vec<&'a [u8]>,
    pub req: Vec<&'a [u8]>,
    pub ifreq: Vec<&'a [u8]>,
    pub cifreq: Vec<&'a [u8]>,
}

impl<'a> Model for ListedNeeds<'a> {
    ghost use Rattle.std.specs.Prelude.{map};
    ghost use Rattle.intake_list.specs.Typed as typed;

    ghost Value = { typed.ListedNeeds };

    ghost view = { λ e. record {
      fmid = map (λ word. word.now) e.fmid.items;
      pre = map (λ word. word.now) e.pre.items;
      req = map (λ word. word.now) e.req.items;
      ifreq = map (λ word. word.now) e.ifreq.items;
      cifreq = map (λ word. word.now) e.cifreq.items;
    } };
}

/// What a SYSMOD supersedes and deletes, and the SYSMODs that supersede or delete it.
#[derive(Drop)]
pub struct ListedRemovals<'a> {
    pub sups: Vec<&'a [u8]>,
    pub sup_by: Vec<&'a [u8]>,
    pub deletes: Vec<&'a [u8]>,
    pub del_by: Vec<&'a [u8]>,
}

impl<'a> Model for ListedRemovals<'a> {
    ghost use Rattle.std.specs.Prelude.{map};
    ghost use Rattle.intake_list.specs.Typed as typed;

    ghost Value = { typed.ListedRemovals };

    ghost view = { λ e. record {
      sups = map (λ word. word.now) e.sups.items;
      sup_by = map (λ word. word.now) e.sup_by.items;
      deletes = map (λ word. word.now) e.deletes.items;
      del_by = map (λ word. word.now) e.del_by.items;
    } };
}

/// NPRE and VERSION of a SYSMOD, its REWORK, and the date and time of its installation.
#[derive(Drop)]
pub struct ListedOthers<'a> {
    pub npre: Vec<&'a [u8]>,
    pub version: Vec<&'a [u8]>,
    pub rework: Vec<&'a [u8]>,
    pub installed: Vec<&'a [u8]>,
}

impl<'a> Model for ListedOthers<'a> {
    ghost use Rattle.std.specs.Prelude.{map};
    ghost use Rattle.intake_list.specs.Typed as typed;

    ghost Value = { typed.ListedOthers };

    ghost view = { λ e. record {
      npre = map (λ word. word.now) e.npre.items;
      version = map (λ word. word.now) e.version.items;
      rework = map (λ word. word.now) e.rework.items;
      installed = map (λ word. word.now) e.installed.items;
    } };
}

/// The owner of an element, and its level.
#[derive(Drop)]
pub struct ListedLevel<'a> {
    pub fmid: Vec<&'a [u8]>,
    pub rmid: Vec<&'a [u8]>,
    pub umids: Vec<&'a [u8]>,
}

impl<'a> Model for ListedLevel<'a> {
    ghost use Rattle.std.specs.Prelude.{map};
    ghost use Rattle.intake_list.specs.Typed as typed;

    ghost Value = { typed.ListedLevel };

    ghost view = { λ e. record {
      fmid = map (λ word. word.now) e.fmid.items;
      rmid = map (λ word. word.now) e.rmid.items;
      umids = map (λ word. word.now) e.umids.items;
    } };
}

/// The libraries of an element: those of DISTLIB and SYSLIB, and the words of LIBRARIES, such as `DISTLIB=AMOD1`.
#[derive(Drop)]
pub struct ListedLibraries<'a> {
    pub distlib: Vec<&'a [u8]>,
    pub syslib: Vec<&'a [u8]>,
    pub libraries: Vec<&'a [u8]>,
}

impl<'a> Model for ListedLibraries<'a> {
    ghost use Rattle.std.specs.Prelude.{map};
    ghost use Rattle.intake_list.specs.Typed as typed;

    ghost Value = { typed.ListedLibraries };

    ghost view = { λ e. record {
      distlib = map (λ word. word.now) e.distlib.items;
      syslib = map (λ word. word.now) e.syslib.items;
      libraries = map (λ word. word.now) e.libraries.items;
    } };
}

// Whether a key TYPE has the value.
fn is_of_type(text: &[u8], entry: &ListEntry<'_>) -> bool
    ensures { result ≡ has_value (codes "TYPE") text.now entry.now }
{
    has_value(b"TYPE", text, entry)
}

/// The type of the SYSMOD, if the list gives one. SUPERSEDED and DELETED are none.
pub fn type_of(entry: &ListEntry<'_>) -> Option<Kind>
    ensures { result ≡ type_of entry.now }
{
    if is_of_type(b"FUNCTION", entry) {
        Some(Kind::Function)
    } else if is_of_type(b"PTF", entry) {
        Some(Kind::Ptf)
    } else if is_of_type(b"APAR", entry) {
        Some(Kind::Apar)
    } else if is_of_type(b"USERMOD", entry) {
        Some(Kind::Usermod)
    } else {
        None
    }
}

/// Whether a command broke off in the middle of the SYSMOD.
pub fn is_broken(entry: &ListEntry<'_>) -> bool
    ensures { result ≡ is_broken entry.now }
{
    has_value(b"ERROR", b"YES", entry)
}

// The values of a key that has two names.
fn values_under_either<'a>(
    alloc: Global,
    name: &[u8],
    other: &[u8],
    entry: &ListEntry<'a>,
) -> Result<Vec<&'a [u8]>, AllocError>
    ensures { IfOk result (λ values. map (λ word. word.now) values.items
        ≡ values_under_either name.now other.now entry.now) }
{
    let mut values = values_under(alloc, name, entry)?;
    let more = values_under(alloc, other, entry)?;
    add_words(&mut values, more.as_slice())?;
    Ok(values)
}

/// The function of the SYSMOD, and its requisites.
pub fn needs_of<'a>(alloc: Global, entry: &ListEntry<'a>) -> Result<ListedNeeds<'a>, AllocError>
    ensures { IfOk result (λ found. found ≡ needs_of entry.now) }
{
    let fmid = values_under(alloc, b"FMID", entry)?;
    let pre = values_under(alloc, b"PRE", entry)?;
    let req = values_under(alloc, b"REQ", entry)?;
    let ifreq = values_under(alloc, b"IFREQ", entry)?;
    let cifreq = values_under(alloc, b"CIFREQ", entry)?;
    Ok(ListedNeeds {
        fmid,
        pre,
        req,
        ifreq,
        cifreq,
    })
}

/// What the SYSMOD supersedes and deletes, and the SYSMODs that supersede or delete it.
pub fn removals_of<'a>(
    alloc: Global,
    entry: &ListEntry<'a>,
) -> Result<ListedRemovals<'a>, AllocError>
    ensures { IfOk result (λ found. found ≡ removals_of entry.now) }
{
    let sups = values_under_either(alloc, b"SUPING", b"SUP", entry)?;
    let sup_by = values_under_either(alloc, b"SUPBY", b"LASTSUP", entry)?;
    let deletes = values_under(alloc, b"DELETE", entry)?;
    let del_by = values_under(alloc, b"DELBY", entry)?;
    Ok(ListedRemovals {
        sups,
        sup_by,
        deletes,
        del_by,
    })
}

/// NPRE and VERSION of the SYSMOD, its REWORK, and the date and time of its installation.
pub fn others_of<'a>(alloc: Global, entry: &ListEntry<'a>) -> Result<ListedOthers<'a>, AllocError>
    ensures { IfOk result (λ found. found ≡ others_of entry.now) }
{
    let npre = values_under(alloc, b"NPRE", entry)?;
    let version = values_under(alloc, b"VERSION", entry)?;
    let rework = values_under(alloc, b"REWORK", entry)?;
    let installed = values_under(alloc, b"INS", entry)?;
    Ok(ListedOthers {
        npre,
        version,
        rework,
        installed,
    })
}

/// The owner of the element, and its level.
pub fn level_of<'a>(alloc: Global, entry: &ListEntry<'a>) -> Result<ListedLevel<'a>, AllocError>
    ensures { IfOk result (λ found. found ≡ level_of entry.now) }
{
    let fmid = values_under(alloc, b"FMID", entry)?;
    let rmid = values_under(alloc, b"RMID", entry)?;
    let umids = values_under(alloc, b"UMID", entry)?;
    Ok(ListedLevel { fmid, rmid, umids })
}

/// The libraries of the element.
pub fn libraries_of<'a>(
    alloc: Global,
    entry: &ListEntry<'a>,
) -> Result<ListedLibraries<'a>, AllocError>
    ensures { IfOk result (λ found. found ≡ libraries_of entry.now) }
{
    let distlib = values_under(alloc, b"DISTLIB", entry)?;
    let syslib = values_under(alloc, b"SYSLIB", entry)?;
    let libraries = values_under(alloc, b"LIBRARIES", entry)?;
    Ok(ListedLibraries {
        distlib,
        syslib,
        libraries,
    })
}
