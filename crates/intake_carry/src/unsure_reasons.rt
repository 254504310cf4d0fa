//! Why it is not sure that a SYSMOD can be installed, in words.

use crate::parts::key_of;
use fields::Id;
use intake_elements::{keys_of, modules_of};
use intake_read::{WideElement, WideFile, WideOperand, WideSysmod, list_members};
use intake_sysmod::Options;
use std::alloc::{AllocError, Global};
use std::collections::{BTreeMap, BTreeSet};
use sysmods_values::{ElemChange, Sysmod};
use terms::Kind;

/// Elements that SYSMODs share, each with the first SYSMOD that changes it, and what is said of that SYSMOD.
#[derive(Drop)]
pub(crate) struct SharedElements<'a> {
    by_key: BTreeMap<u64, &'a WideSysmod>,
    /// The words before its id, and those after it.
    before_id: &'static [u8],
    after_id: &'static [u8],
}

// The operand VERSION of the element statement, or `None` if it has none.
fn version_of(element: &WideElement) -> Option<&WideOperand> {
    element
        .operands
        .iter()
        .find(|operand| operand.name.as_slice() == b"VERSION".as_slice())
}

// Whether a `++VER` or an element of the SYSMOD has the operand VERSION.
fn has_version(sysmod: &WideSysmod) -> bool {
    sysmod.vers.iter().any(|ver| !ver.version.is_empty())
        || sysmod
            .elements
            .iter()
            .any(|element| version_of(element).is_some())
}

// Adds the id, if the text is one.
fn push_id(ids: &mut Vec<Id>, text: &[u8]) -> Result<(), AllocError> {
    if let Some(id) = Id::read(text) {
        ids.push(id)?;
    }
    Ok(())
}

// The functions from which the SYSMOD takes over the element by VERSION: those that the element's operand names, and
// those that the `++VER`s name.
fn functions_before(
    alloc: Global,
    sysmod: &WideSysmod,
    element: &WideElement,
) -> Result<Vec<Id>, AllocError> {
    let mut ids = Vec::new(alloc);
    for ver in sysmod.vers.iter() {
        for function in ver.version.iter() {
            push_id(&mut ids, function.as_slice())?;
        }
    }
    if let Some(operand) = version_of(element) {
        for member in list_members(alloc, operand.text())? {
            push_id(&mut ids, &member.to_ascii_uppercase(alloc)?)?;
        }
    }
    Ok(ids)
}

// The functions to which the elements of the SYSMOD belong: itself, if it is one, or else those of its `++VER`s.
fn functions_of(alloc: Global, sysmod: &WideSysmod) -> Result<Vec<Id>, AllocError> {
    let mut ids = Vec::new(alloc);
    if sysmod.kind == Kind::Function {
        push_id(&mut ids, sysmod.id.as_slice())?;
        return Ok(ids);
    }
    for ver in sysmod.vers.iter() {
        if let Some(fmid) = &ver.fmid {
            push_id(&mut ids, fmid.as_slice())?;
        }
    }
    Ok(ids)
}

// Adds each element that the SYSMOD changes, by its key, with each function to which it belongs.
fn add_owned(
    alloc: Global,
    owned: &mut BTreeSet<(u64, Id)>,
    sysmod: &WideSysmod,
) -> Result<(), AllocError> {
    let functions = functions_of(alloc, sysmod)?;
    for element in sysmod.elements.iter() {
        for key in &keys_of(alloc, element)? {
            for function in functions.iter() {
                owned.insert((*key, *function))?;
            }
        }
    }
    Ok(())
}

// The type of the elements that statements of this word change, as it is spelled.
fn type_word(word: &[u8]) -> &[u8] {
    match word {
        b"MACUPD" => b"MAC",
        b"SRCUPD" => b"SRC",
        b"ZAP" => b"MOD",
        b"JARUPD" => b"JAR",
        _ => word,
    }
}

// Appends the words with a blank between them.
fn append_words(text: &mut Vec<u8>, first: &[u8], second: &[u8]) -> Result<(), AllocError> {
    text.extend_from_slice(first)?;
    text.push(b' ')?;
    text.extend_from_slice(second)?;
    Ok(())
}

// Appends the type and the name of the element with the key, which the statement changes or which is assembled of its
// element. Returns `false` if it is neither.
fn append_element_if_key(
    alloc: Global,
    text: &mut Vec<u8>,
    element: &WideElement,
    key: u64,
) -> Result<bool, AllocError> {
    let keys = keys_of(alloc, element)?;
    let Some(place) = keys.iter().position(|own| *own == key) else {
        return Ok(false);
    };
    let modules = modules_of(alloc, element)?;
    match place.checked_sub(1).and_then(|place| modules.get(place)) {
        Some(module) => append_words(text, b"MOD", module)?,
        None => append_words(
            text,
            type_word(element.word.as_slice()),
            element.name.as_slice(),
        )?,
    }
    Ok(true)
}

// Appends the type and the name of the element with the key, which the SYSMOD changes.
fn append_element(
    alloc: Global,
    text: &mut Vec<u8>,
    sysmod: &WideSysmod,
    key: u64,
) -> Result<(), AllocError> {
    for element in sysmod.elements.iter() {
        if append_element_if_key(alloc, text, element, key)? {
            return Ok(());
        }
    }
    Ok(())
}

impl<'a> SharedElements<'a> {
    // No elements.
    fn new(alloc: Global, before_id: &'static [u8], after_id: &'static [u8]) -> SharedElements<'a> {
        SharedElements {
            by_key: BTreeMap::new(alloc),
            before_id,
            after_id,
        }
    }

    // Adds what the element statement of the SYSMOD changes.
    fn add(
        &mut self,
        alloc: Global,
        sysmod: &'a WideSysmod,
        element: &WideElement,
    ) -> Result<(), AllocError> {
        for key in &keys_of(alloc, element)? {
            if !self.by_key.contains_key(key) {
                self.by_key.insert(*key, sysmod)?;
            }
        }
        Ok(())
    }

    /// The elements that these SYSMODs, which are left out, would change.
    pub(crate) fn of_left_out(
        alloc: Global,
        left: &[&'a WideSysmod],
    ) -> Result<SharedElements<'a>, AllocError> {
        let mut shared = SharedElements::new(alloc, b"is also changed by", b", which was left out");
        for sysmod in left {
            for element in sysmod.elements.iter() {
                shared.add(alloc, *sysmod, element)?;
            }
        }
        Ok(shared)
    }

    /// The elements that a SYSMOD of the files takes over by VERSION from a function which brings them in these files,
    /// if stand-ins are asked for.
    pub(crate) fn taken_over(
        alloc: Global,
        options: &Options,
        files: &'a [WideFile],
    ) -> Result<SharedElements<'a>, AllocError> {
        let mut shared = SharedElements::new(
            alloc,
            b"passes to another function by VERSION of",
            b", which smpe does not do",
        );
        let has_any = files.iter().any(|file| file
            .sysmods
            .iter()
            .any(|sysmod| has_version(sysmod)));
        if !options.decide || !has_any {
            return Ok(shared);
        }
        let mut owned = BTreeSet::new(alloc);
        for file in files {
            for sysmod in file.sysmods.iter() {
                add_owned(alloc, &mut owned, sysmod)?;
            }
        }
        for file in files {
            for sysmod in file.sysmods.iter() {
                shared.add_taken_over(alloc, &owned, sysmod)?;
            }
        }
        Ok(shared)
    }

    // Adds the elements that the SYSMOD takes over from a function to which they belong.
    fn add_taken_over(
        &mut self,
        alloc: Global,
        owned: &BTreeSet<(u64, Id)>,
        sysmod: &'a WideSysmod,
    ) -> Result<(), AllocError> {
        for element in sysmod.elements.iter() {
            let functions = functions_before(alloc, sysmod, element)?;
            for key in &keys_of(alloc, element)? {
                let is_taken = functions
                    .iter()
                    .any(|function| owned.contains(&(*key, *function)));
                if is_taken && !self.by_key.contains_key(key) {
                    self.by_key.insert(*key, sysmod)?;
                }
            }
        }
        Ok(())
    }

    /// What is said of the element that the change changes: nothing if it is not one of these.
    pub(crate) fn text(&self, alloc: Global, change: &ElemChange) -> Result<Vec<u8>, AllocError> {
        let key = key_of(change);
        let mut text = Vec::new(alloc);
        let Some(sysmod) = self.by_key.get(&key) else {
            return Ok(text);
        };
        append_element(alloc, &mut text, *sysmod, key)?;
        text.push(b' ')?;
        append_words(&mut text, self.before_id, sysmod.id.as_slice())?;
        text.extend_from_slice(self.after_id)?;
        Ok(text)
    }

    /// What is said of the first of these changes whose element is one of these, or `None` if none is.
    pub(crate) fn text_of_any(
        &self,
        alloc: Global,
        changes: &[ElemChange],
    ) -> Result<Option<Vec<u8>>, AllocError> {
        let found = changes
            .iter()
            .find(|change| self.by_key.contains_key(&key_of(change)));
        match found {
            Some(change) => Ok(Some(self.text(alloc, change)?)),
            None => Ok(None),
        }
    }
}

// Whether NPRE of the SYSMOD names the one that is left out.
fn has_in_npre(sysmod: &Sysmod, left: &WideSysmod) -> bool {
    sysmod.vers.iter().any(|ver| ver
        .npre
        .iter()
        .any(|id| id.as_bytes() == left.id.as_slice()))
}

/// What is said of a SYSMOD and one that is left out, if NPRE or DELETE of one of them names the other.
pub(crate) fn conflict_text(
    alloc: Global,
    left: &WideSysmod,
    sysmod: &Sysmod,
) -> Result<Vec<u8>, AllocError> {
    let id = left.id.as_slice();
    let mut text = Vec::new(alloc);
    if has_in_npre(sysmod, left) {
        append_words(&mut text, b"its NPRE names", id)?;
    } else {
        append_words(
            &mut text,
            b"it or its function is named in NPRE or DELETE of",
            id,
        )?;
    }
    text.extend_from_slice(b", which was left out")?;
    Ok(text)
}
