//! Files of SYSMODs, as text.

use crate::holds::{print_error, print_hold};
use crate::row_text::RowText;
use fields::spelling::{kind_text, type_text};
use mcs::{Assign, Item, read_ptfin};
use std::alloc::Global;
use sysmods_values::{Action, ElemChange, Sysmod, Ver};

fn print_ver(out: &mut RowText, ver: &Ver) {
    out.print_words(&[ver.srel.as_bytes()]);
    if let Some(fmid) = ver.fmid {
        out.print_words(&[fmid.as_bytes()]);
    }
    out.print_id_list(b" PRE", &ver.pre);
    out.print_id_list(b" SUP", &ver.sup);
    out.print_id_list(b" DELETE", &ver.del);
    for condition in ver.ifs.iter() {
        out.print_words(&[b"IF", condition.function.as_bytes()]);
        out.print_id_list(b" REQ", &condition.req);
    }
}

fn print_change(out: &mut RowText, change: &ElemChange) {
    out.print_words(&[type_text(change.elem_type)]);
    out.print_words(&[change.name.as_bytes()]);
    let records = match &change.action {
        Action::Replaces {
            distlib,
            syslib,
            lines,
        } => {
            out.print_words(&[distlib.as_bytes(), syslib.as_bytes()]);
            lines.len()
        }
        Action::Updates { update } => {
            out.print(b" by");
            update.records().len()
        }
    };
    out.print(b" ");
    out.print_number(records);
}

/// Appends the SYSMOD with its `++VER`s, holds and element statements.
pub(crate) fn print_sysmod(out: &mut RowText, sysmod: &Sysmod) {
    out.print(kind_text(sysmod.kind));
    out.print_words(&[sysmod.id.as_bytes()]);
    for ver in sysmod.vers.iter() {
        print_ver(out, ver);
    }
    for hold in sysmod.holds.iter() {
        print_hold(out, hold);
    }
    for change in sysmod.changes.iter() {
        print_change(out, change);
    }
}

fn print_assign(out: &mut RowText, assign: &Assign) {
    out.print(b"ASSIGN");
    out.print_words(&[assign.source.as_bytes()]);
    out.print_ids(assign.to.as_slice());
}

fn print_items(out: &mut RowText, items: &[Item]) {
    for item in items {
        match item {
            Item::Sysmod(sysmod) => print_sysmod(out, sysmod),
            Item::Assign(assign) => print_assign(out, assign),
        }
        out.print(b";");
    }
}

/// The items of the file, or the record and the code of its fault.
pub(crate) fn ptfin_text(alloc: Global, bytes: &[u8]) -> RowText {
    let mut out = RowText::new();
    match read_ptfin(alloc, bytes) {
        Ok(items) => print_items(&mut out, items.as_slice()),
        Err(error) => print_error(&mut out, error),
    }
    out
}
