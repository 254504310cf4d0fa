//! Makes items of statements. A faulty statement makes a `WideOther`, and a faulty header a SYSMOD that has it as one.
use crate::items::{
    FaultyOperand, OperandFault, OtherReason, WideAssign, WideElement, WideHold, WideHoldKind,
    WideIf, WideOperand, WideOther, WideRelease, WideSysmod, WideVer,
};
use crate::meaning::is_listed;
use crate::operands::{bare_word_fault, fill_flag, fill_list, fill_text, fill_value, keep_faulty};
use crate::statement::WideStatement;
use std::alloc::{AllocError, Global};
use terms::Kind;

/// Operands of headers that change no decision, with blanks between.
const DROPPED: &[u8] = b"REWORK DESC DESCRIPTION FILES RFDSNPFX RFDSNTYPE RFDSNTYP FESN";

impl WideSysmod {
    /// Reads a header as the beginning of a SYSMOD.
    pub(crate) fn from_header(
        alloc: Global,
        kind: Kind,
        statement: WideStatement,
    ) -> Result<WideSysmod, AllocError> {
        let mut sysmod = WideSysmod {
            place: statement.place,
            kind,
            id: Vec::new(alloc),
            dropped: Vec::new(alloc),
            faulty: Vec::new(alloc),
            vers: Vec::new(alloc),
            holds: Vec::new(alloc),
            elements: Vec::new(alloc),
            others: Vec::new(alloc),
        };
        if let Some(reason) = statement.fault {
            sysmod.id = statement.name.clone()?;
            sysmod
                .others
                .push(WideOther::from_statement(reason, statement))?;
            return Ok(sysmod);
        }
        sysmod.id = statement.name;
        for operand in statement.operands {
            if is_listed(operand.name.as_slice(), DROPPED) {
                sysmod.dropped.push(operand)?;
            } else {
                keep_faulty(&mut sysmod.faulty, operand, OperandFault::Unknown)?;
            }
        }
        Ok(sysmod)
    }
}

impl WideVer {
    /// Reads the statement as a `++VER` with these SRELs, which its list names.
    pub(crate) fn from_statement(
        alloc: Global,
        srels: Vec<Vec<u8>>,
        statement: WideStatement,
    ) -> Result<WideVer, AllocError> {
        let mut ver = WideVer {
            place: statement.place,
            srels,
            fmid: None,
            pre: Vec::new(alloc),
            req: Vec::new(alloc),
            sup: Vec::new(alloc),
            npre: Vec::new(alloc),
            delete: Vec::new(alloc),
            version: Vec::new(alloc),
            faulty: Vec::new(alloc),
            ifs: Vec::new(alloc),
        };
        for operand in statement.operands {
            ver.add_operand(alloc, operand)?;
        }
        Ok(ver)
    }

    fn add_operand(&mut self, alloc: Global, operand: WideOperand) -> Result<(), AllocError> {
        let faulty = &mut self.faulty;
        match operand.name.as_slice() {
            b"FMID" => fill_value(alloc, &mut self.fmid, operand, faulty),
            b"PRE" => fill_list(alloc, &mut self.pre, operand, faulty),
            b"REQ" => fill_list(alloc, &mut self.req, operand, faulty),
            b"SUP" => fill_list(alloc, &mut self.sup, operand, faulty),
            b"NPRE" => fill_list(alloc, &mut self.npre, operand, faulty),
            b"DELETE" => fill_list(alloc, &mut self.delete, operand, faulty),
            b"VERSION" => fill_list(alloc, &mut self.version, operand, faulty),
            _ => keep_faulty(faulty, operand, OperandFault::Unknown),
        }
    }
}

impl WideIf {
    /// Reads the statement as an `++IF`.
    pub(crate) fn from_statement(
        alloc: Global,
        statement: WideStatement,
    ) -> Result<WideIf, AllocError> {
        let mut condition = WideIf {
            place: statement.place,
            fmid: None,
            then: false,
            req: Vec::new(alloc),
            faulty: Vec::new(alloc),
        };
        for operand in statement.operands {
            let faulty = &mut condition.faulty;
            match operand.name.as_slice() {
                b"FMID" => fill_value(alloc, &mut condition.fmid, operand, faulty)?,
                b"REQ" => fill_list(alloc, &mut condition.req, operand, faulty)?,
                b"THEN" => fill_flag(&mut condition.then, operand, faulty)?,
                _ => keep_faulty(faulty, operand, OperandFault::Unknown)?,
            }
        }
        Ok(condition)
    }
}

// Puts the kind that the operand's name means into the slot of its statement. The operand is faulty if the slot is
// filled, or if it has parentheses.
fn fill_kind(
    slot: &mut Option<WideHoldKind>,
    kind: WideHoldKind,
    operand: WideOperand,
    faulty: &mut Vec<FaultyOperand>,
) -> Result<(), AllocError> {
    match bare_word_fault(slot.is_some(), &operand) {
        Some(fault) => keep_faulty(faulty, operand, fault),
        None => {
            *slot = Some(kind);
            Ok(())
        }
    }
}

impl WideHold {
    /// Reads the statement as a `++HOLD`.
    pub(crate) fn from_statement(
        alloc: Global,
        statement: WideStatement,
    ) -> Result<WideHold, AllocError> {
        let mut hold = WideHold {
            place: statement.place,
            id: statement.name,
            kind: None,
            reason: None,
            fmid: None,
            class: None,
            date: None,
            comment: None,
            dropped: Vec::new(alloc),
            faulty: Vec::new(alloc),
        };
        for operand in statement.operands {
            hold.add_operand(alloc, operand)?;
        }
        Ok(hold)
    }

    fn add_operand(&mut self, alloc: Global, operand: WideOperand) -> Result<(), AllocError> {
        let faulty = &mut self.faulty;
        if let Some(kind) = WideHoldKind::read(operand.name.as_slice()) {
            return fill_kind(&mut self.kind, kind, operand, faulty);
        }
        match operand.name.as_slice() {
            b"REASON" => fill_value(alloc, &mut self.reason, operand, faulty),
            b"FMID" => fill_value(alloc, &mut self.fmid, operand, faulty),
            b"CLASS" => fill_value(alloc, &mut self.class, operand, faulty),
            b"DATE" => fill_value(alloc, &mut self.date, operand, faulty),
            b"COMMENT" => fill_text(&mut self.comment, operand, faulty),
            b"RESOLVER" | b"CATEGORY" => {
                self.dropped.push(operand)?;
                Ok(())
            }
            _ => keep_faulty(faulty, operand, OperandFault::Unknown),
        }
    }
}

impl WideRelease {
    /// Reads the statement as a `++RELEASE`.
    pub(crate) fn from_statement(
        alloc: Global,
        statement: WideStatement,
    ) -> Result<WideRelease, AllocError> {
        let mut release = WideRelease {
            place: statement.place,
            id: statement.name,
            kind: None,
            reason: None,
            fmid: None,
            dropped: Vec::new(alloc),
            faulty: Vec::new(alloc),
        };
        for operand in statement.operands {
            release.add_operand(alloc, operand)?;
        }
        Ok(release)
    }

    fn add_operand(&mut self, alloc: Global, operand: WideOperand) -> Result<(), AllocError> {
        let faulty = &mut self.faulty;
        if let Some(kind) = WideHoldKind::read(operand.name.as_slice()) {
            return fill_kind(&mut self.kind, kind, operand, faulty);
        }
        match operand.name.as_slice() {
            b"REASON" => fill_value(alloc, &mut self.reason, operand, faulty),
            b"FMID" => fill_value(alloc, &mut self.fmid, operand, faulty),
            b"RESOLVER" | b"CATEGORY" | b"CLASS" | b"DATE" | b"COMMENT" => {
                self.dropped.push(operand)?;
                Ok(())
            }
            _ => keep_faulty(faulty, operand, OperandFault::Unknown),
        }
    }
}

impl WideAssign {
    /// Reads the statement as an `++ASSIGN`.
    pub(crate) fn from_statement(
        alloc: Global,
        statement: WideStatement,
    ) -> Result<WideAssign, AllocError> {
        let mut assign = WideAssign {
            place: statement.place,
            source: None,
            to: Vec::new(alloc),
            faulty: Vec::new(alloc),
        };
        for operand in statement.operands {
            let faulty = &mut assign.faulty;
            match operand.name.as_slice() {
                b"SOURCEID" => fill_text(&mut assign.source, operand, faulty)?,
                b"TO" => fill_list(alloc, &mut assign.to, operand, faulty)?,
                _ => keep_faulty(faulty, operand, OperandFault::Unknown)?,
            }
        }
        Ok(assign)
    }
}

impl WideElement {
    /// Reads an element statement.
    pub(crate) fn from_statement(
        alloc: Global,
        statement: WideStatement,
    ) -> Result<WideElement, AllocError> {
        let mut element = WideElement {
            place: statement.place,
            word: statement.word,
            name: statement.name,
            distlib: None,
            syslib: None,
            relfile: None,
            distmod: None,
            assem: Vec::new(alloc),
            libraries: Vec::new(alloc),
            operands: Vec::new(alloc),
            faulty: Vec::new(alloc),
            inline: statement.inline,
        };
        for operand in statement.operands {
            element.add_operand(alloc, operand)?;
        }
        Ok(element)
    }

    fn add_operand(&mut self, alloc: Global, operand: WideOperand) -> Result<(), AllocError> {
        let faulty = &mut self.faulty;
        match operand.name.as_slice() {
            b"DISTLIB" => fill_value(alloc, &mut self.distlib, operand, faulty),
            b"SYSLIB" => fill_value(alloc, &mut self.syslib, operand, faulty),
            b"RELFILE" => fill_value(alloc, &mut self.relfile, operand, faulty),
            b"DISTMOD" => fill_value(alloc, &mut self.distmod, operand, faulty),
            b"ASSEM" => fill_list(alloc, &mut self.assem, operand, faulty),
            b"TXLIB" | b"LKLIB" | b"FROMDS" => {
                self.libraries.push(operand)?;
                Ok(())
            }
            _ => {
                self.operands.push(operand)?;
                Ok(())
            }
        }
    }
}

impl WideOther {
    /// Keeps a statement that makes no SYSMOD, `++VER`, hold or element, for this reason.
    pub(crate) fn from_statement(reason: OtherReason, statement: WideStatement) -> WideOther {
        WideOther {
            place: statement.place,
            reason,
            word: statement.word,
            name: statement.name,
            operands: statement.operands,
            inline: statement.inline,
        }
    }
}
