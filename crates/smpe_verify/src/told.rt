//! The line about what was found in a store.
ghost use Rattle.std.specs.Prelude.{◌≡◌, ◌++◌, IfOk, OnOk};
ghost use Rattle.smpe_verify.specs.Telling.{IsTold, counts_text, breach_text, entry_fault_text, element_fault_text};
ghost use Rattle.smpe_verify.specs.Telling.{level_text};

use crate::breach::{Breach, ElementFault, EntryFault, Level};
use crate::joined::{append_joined, append_line};
use crate::verification::{Counts, Verification};
use fields::ZoneName;
use fields::spelling::type_text;
use itoa::Buffer;
use std::alloc::{AllocError, Global};

// The status of a program that has found a zone which is not closed.
const BROKEN_STATUS: u8 = 12;

/// The line about what was found, and the program's status.
#[derive(Drop)]
pub struct VerifyAnswer {
    pub text: Vec<u8>,
    pub status: u8,
}

/// Puts into words what was found: the counts, or the first breach, with its zone, its SYSMOD or element, and the rule
/// that it breaks.
pub fn describe_verification(
    alloc: Global,
    verification: Verification,
) -> Result<VerifyAnswer, AllocError>
    ensures { IfOk result (IsTold verification) }
{
    let mut text = Vec::new(alloc);
    match verification {
        Verification::Closed(counts) => {
            append_counts(counts, &mut text)?;
            Ok(VerifyAnswer { text, status: 0 })
        }
        Verification::Broken(zone, breach) => {
            append_breach(zone, breach, &mut text)?;
            Ok(VerifyAnswer {
                text,
                status: BROKEN_STATUS,
            })
        }
    }
}

// Appends the line of a store whose zones are all closed.
fn append_counts(counts: Counts, text: &mut Vec<u8>) -> Result<(), AllocError>
    ensures { OnOk result (text.new.items ≡ text.old.items ++ counts_text counts) }
{
    let mut sysmods = Buffer::new();
    let mut zones = Buffer::new();
    let mut entries = Buffer::new();
    let mut elements = Buffer::new();
    append_line(
        &[
            b"VERIFIED",
            b"SYSMODS",
            sysmods.format(counts.sysmods).as_bytes(),
            b"ZONES",
            zones.format(counts.zones).as_bytes(),
            b"ENTRIES",
            entries.format(counts.entries).as_bytes(),
            b"ELEMENTS",
            elements.format(counts.elements).as_bytes(),
        ],
        text,
    )
}

// Appends the line of a breach: the zone, the entry or the element, and after a colon the rule.
fn append_breach(zone: ZoneName, breach: Breach, text: &mut Vec<u8>) -> Result<(), AllocError>
    ensures { OnOk result (text.new.items ≡ text.old.items ++ breach_text zone breach) }
{
    match breach {
        Breach::OfEntry(id, fault) => {
            append_joined(&[b"ZONE", zone.as_bytes(), id.as_bytes()], text)?;
            text.extend_from_slice(b": ")?;
            append_entry_fault(fault, text)
        }
        Breach::OfElement(elem_type, name, fault) => {
            append_joined(
                &[
                    b"ZONE",
                    zone.as_bytes(),
                    type_text(elem_type),
                    name.as_bytes(),
                ],
                text,
            )?;
            text.extend_from_slice(b": ")?;
            append_element_fault(fault, text)
        }
    }
}

// Appends the rest of the line, after the colon: the rule that the entry breaks.
fn append_entry_fault(fault: EntryFault, text: &mut Vec<u8>) -> Result<(), AllocError>
    ensures { OnOk result (text.new.items ≡ text.old.items ++ entry_fault_text fault) }
{
    match fault {
        EntryFault::VerNotReceived => append_line(
            &[b"the VER by which it was applied is not received"],
            text,
        ),
        EntryFault::FmidNotApplied(id) => append_line(
            &[b"FMID", id.as_bytes(), b"is not applied"],
            text,
        ),
        EntryFault::RequisiteNotSupplied(id) => append_line(
            &[
                b"REQUISITE",
                id.as_bytes(),
                b"is neither applied nor superseded nor waived",
            ],
            text,
        ),
        EntryFault::NpreApplied(id) => append_line(&[b"NPRE", id.as_bytes(), b"is applied"], text),
        EntryFault::DeletedInChain(id) => {
            append_line(&[id.as_bytes(), b"in its chain is deleted"], text)
        }
        EntryFault::SupbyNotApplied(id) => append_line(
            &[b"SUPBY", id.as_bytes(), b"is not applied"],
            text,
        ),
    }
}

// Appends the rest of the line, after the colon: the rule that the element breaks.
fn append_element_fault(fault: ElementFault, text: &mut Vec<u8>) -> Result<(), AllocError>
    ensures { OnOk result (text.new.items ≡ text.old.items ++ element_fault_text fault) }
{
    match fault {
        ElementFault::LevelNotApplied(level, id) => {
            append_line(&[level_text(level), id.as_bytes(), b"is not applied"], text)
        }
        ElementFault::NotReplacedBy(id) => {
            append_line(&[b"RMID", id.as_bytes(), b"does not replace it"], text)
        }
        ElementFault::NotUpdatedBy(id) => {
            append_line(&[b"UMID", id.as_bytes(), b"does not update it"], text)
        }
        ElementFault::OtherOwner(level, id, owner) => append_line(
            &[
                level_text(level),
                id.as_bytes(),
                b"belongs to",
                owner.as_bytes(),
            ],
            text,
        ),
    }
}

// The operand that names the level in the line.
fn level_text(level: Level) -> &'static [u8]
    ensures { result.now ≡ level_text level }
{
    match level {
        Level::Fmid => b"FMID",
        Level::Rmid => b"RMID",
        Level::Umid => b"UMID",
    }
}
