//! What is found, as the answer tells it.
use fields::Id;
use intake_cards::CardPlace;
use std::alloc::{AllocError, Global};

/// What a finding is about.
#[derive(Clone, Copy, PartialEq, Eq)]
pub(crate) enum Rule {
    /// The files cannot be read.
    Refused,
    /// A statement or an operand is not as RECEIVE or SMP/E has it.
    Fault,
    /// RECEIVE would refuse the records of a file whose statements are read here without a fault.
    Records,
    /// RECEIVE refuses the SYSMOD.
    Receive,
    /// A SYSMOD lacks a requisite of one that it supersedes.
    Requisites,
    /// A SYSMOD does not change an element of one that it supersedes.
    Elements,
    /// Two SYSMODs change one element, and neither is over the other.
    Unordered,
    /// A requisite is not in the stream.
    Absent,
    /// A SYSMOD has several `++VER`s for the SREL.
    Vers,
    /// A hold is not on the SYSMOD that supersedes its own.
    Hold,
    /// SYSMODs go on only together.
    Together,
    /// The stream is empty.
    Empty,
}

/// How much a finding says about the stream.
#[derive(Clone, Copy, PartialEq, Eq)]
pub(crate) enum Weight {
    /// A rule of a clean stream is broken.
    Breach,
    /// A statement cannot be read or a SYSMOD not received, so not all of the stream was looked at.
    Fault,
    Remark,
}

impl Rule {
    /// The word of the rule in the answer.
    pub(crate) fn word(self) -> &'static str {
        match self {
            Rule::Refused => "REFUSED",
            Rule::Fault => "FAULT",
            Rule::Records => "RECORDS",
            Rule::Receive => "RECEIVE",
            Rule::Requisites => "REQUISITES",
            Rule::Elements => "ELEMENTS",
            Rule::Unordered => "UNORDERED",
            Rule::Absent => "ABSENT",
            Rule::Vers => "VERS",
            Rule::Hold => "HOLD",
            Rule::Together => "TOGETHER",
            Rule::Empty => "EMPTY",
        }
    }

    /// How much a finding of this rule says.
    pub(crate) fn weight(self) -> Weight {
        match self {
            Rule::Requisites | Rule::Elements | Rule::Unordered => Weight::Breach,
            Rule::Refused | Rule::Fault | Rule::Receive => Weight::Fault,
            Rule::Records | Rule::Absent | Rule::Vers | Rule::Hold | Rule::Together | Rule::Empty =>
                Weight::Remark,
        }
    }
}

/// A finding. What it is not about is absent, or an empty text.
#[derive(Drop)]
pub(crate) struct Finding {
    pub(crate) rule: Rule,
    /// The SYSMOD that it is about, and another one.
    pub(crate) sysmod: Option<Id>,
    pub(crate) other: Option<Id>,
    /// The operand that names the id, and the id.
    pub(crate) operand: &'static str,
    pub(crate) id: Option<Id>,
    /// The element's type and name as the file has them.
    pub(crate) element_type: String,
    pub(crate) element_name: String,
    /// Where the statements of the SYSMODs begin.
    pub(crate) place: Option<CardPlace>,
    pub(crate) other_place: Option<CardPlace>,
    /// The finding in words.
    pub(crate) words: String,
}

impl Finding {
    /// A finding in words, which names no SYSMOD.
    pub(crate) fn new(alloc: Global, rule: Rule, words: String) -> Finding {
        Finding {
            rule,
            sysmod: None,
            other: None,
            operand: "",
            id: None,
            element_type: String::new(alloc),
            element_name: String::new(alloc),
            place: None,
            other_place: None,
            words,
        }
    }
}

/// The id as a text.
pub(crate) fn id_text(alloc: Global, id: Id) -> Result<String, AllocError> {
    Ok(format!(in alloc; "{id}")?)
}
