//! Command files, as text.

use crate::row_text::RowText;
use cntl::{CntlError, Command, Install, read_cntl};
use fields::spelling::command_code_text;
use fields::{Bypass, Reasons, ReceiveOperands, RestoreList};
use std::alloc::Global;

fn print_receive(out: &mut RowText, what: &ReceiveOperands) {
    out.print(b"RECEIVE");
    out.print_if(what.sysmods, b" SYSMODS");
    out.print_if(what.holddata, b" HOLDDATA");
    if let Some(source) = what.source {
        out.print_words(&[source.as_bytes()]);
    }
}

fn print_reasons(out: &mut RowText, name: &[u8], reasons: &Reasons) {
    out.print_if(!matches!(reasons, Reasons::None), name);
    if let Reasons::These(list) = reasons {
        out.print(b"(");
        for reason in list.iter() {
            out.print(reason.as_bytes());
            out.print(b" ");
        }
        out.print(b")");
    }
}

fn print_bypass(out: &mut RowText, bypass: &Bypass) {
    out.print_if(bypass.pre, b" PRE");
    out.print_if(bypass.req, b" REQ");
    out.print_if(bypass.ifreq, b" IFREQ");
    out.print_if(bypass.same_id, b" ID");
    out.print_if(bypass.applycheck, b" APPLYCHECK");
    print_reasons(out, b" HOLDERROR", &bypass.holderror);
    print_reasons(out, b" HOLDSYSTEM", &bypass.holdsystem);
    print_reasons(out, b" HOLDUSER", &bypass.holduser);
    if !bypass.holdclass.is_empty() {
        out.print(b" HOLDCLASS(");
        for class in bypass.holdclass.iter() {
            out.print(class.as_bytes());
            out.print(b" ");
        }
        out.print(b")");
    }
}

fn print_install(out: &mut RowText, name: &[u8], install: &Install) {
    out.print(name);
    out.print_if(install.selection.ptfs, b" PTFS");
    out.print_if(install.selection.groupextend, b" EXTEND");
    out.print_if(install.check, b" CHECK");
    out.print_id_list(b" SELECT", &install.selection.select);
    print_bypass(out, &install.bypass);
}

fn print_command(out: &mut RowText, command: &Command) {
    match command {
        Command::Set(zone) => {
            out.print(b"SET");
            out.print_words(&[zone.as_bytes()]);
            out.print_if(zone.is_global(), b" all");
        }
        Command::Receive(what) => print_receive(out, what),
        Command::Reject(ids) => out.print_id_list(b"REJECT SELECT", ids),
        Command::Apply(install) => print_install(out, b"APPLY", install),
        Command::Accept(install) => print_install(out, b"ACCEPT", install),
        Command::Restore { list, check } => {
            out.print(b"RESTORE");
            out.print_if(*check, b" CHECK");
            match list {
                RestoreList::Select(ids) => out.print_id_list(b" SELECT", ids),
                RestoreList::Group(ids) => out.print_id_list(b" GROUP", ids),
            }
        }
        Command::List { text } => {
            out.print(b"LIST");
            out.print_if(*text, b" TEXT");
        }
        Command::Report => out.print(b"REPORT ERRSYSMODS"),
    }
    out.print(b";");
}

/// The commands of the file, or the record and the code of its first fault.
pub(crate) fn commands_text(alloc: Global, bytes: &[u8]) -> RowText {
    let mut out = RowText::new();
    match read_cntl(alloc, bytes) {
        Ok(commands) => {
            for command in commands.as_slice() {
                print_command(&mut out, command);
            }
        }
        Err(CntlError::Memory) => out.print(b"memory"),
        Err(CntlError::Fault { number, code }) => {
            out.print_number(number);
            out.print_words(&[command_code_text(code)]);
        }
    }
    out
}
