//! The files that are read, and where their SYSMODs and elements are.
use fields::spelling::type_text;
use fields::{Id, Name};
use intake_cards::{CardPlace, CardReader, Layout, StandIn, is_printable_byte};
use intake_service::{GivenFile, WideFile};
use std::alloc::{AllocError, Global};
use std::collections::BTreeMap;
use terms::ElemType;

/// A file's name as it is shown, and what its cards are called.
#[derive(Drop)]
pub(crate) struct ShownFile {
    pub(crate) name: String,
    pub(crate) unit: &'static str,
}

/// An element's type and name.
#[derive(Drop)]
pub(crate) struct ShownElement {
    pub(crate) elem_type: String,
    pub(crate) name: String,
}

/// What the answer says of places and elements.
#[derive(Drop)]
pub(crate) struct Inputs {
    files: Vec<ShownFile>,
    places: BTreeMap<Id, CardPlace>,
    stand_ins: Vec<StandIn>,
}

/// A text for people, with a question mark for each byte that is no printable character of ASCII.
pub(crate) fn shown(alloc: Global, bytes: &[u8]) -> Result<String, AllocError> {
    let mut text = String::new(alloc);
    for byte in bytes {
        let character = if is_printable_byte(*byte) {
            char::from(*byte)
        } else {
            '?'
        };
        text.push(character)?;
    }
    Ok(text)
}

// The name of a file, with a question mark for each control character.
fn shown_name(alloc: Global, name: &str) -> Result<String, AllocError> {
    let mut text = String::new(alloc);
    for character in name.chars() {
        text.push(if character.is_control() {
            '?'
        } else {
            character
        })?;
    }
    Ok(text)
}

// What a card of the file is called.
fn unit_of(bytes: &[u8]) -> &'static str {
    match CardReader::open(0, bytes, None, None) {
        Ok(cards) if cards.layout == Layout::Text => "line",
        _ => "record",
    }
}

/// The files as they are shown.
pub(crate) fn shown_files(
    alloc: Global,
    files: &[GivenFile<'_>],
) -> Result<Vec<ShownFile>, AllocError> {
    let mut shown = Vec::new(alloc);
    for file in files {
        shown.push(ShownFile {
            name: shown_name(alloc, file.name)?,
            unit: unit_of(file.bytes),
        })?;
    }
    Ok(shown)
}

// Where the statements of SYSMODs begin, of each id the first one.
fn sysmod_places(alloc: Global, files: &[WideFile]) -> Result<BTreeMap<Id, CardPlace>, AllocError> {
    let mut places = BTreeMap::new(alloc);
    for file in files {
        for sysmod in file.sysmods.iter() {
            let Some(id) = Id::read(sysmod.id.as_slice()) else {
                continue;
            };
            if !places.contains_key(&id) {
                places.insert(id, sysmod.place)?;
            }
        }
    }
    Ok(places)
}

impl Inputs {
    /// The files, the places of their SYSMODs, and the elements that have stand-ins.
    pub(crate) fn new(
        alloc: Global,
        given: &[GivenFile<'_>],
        files: &[WideFile],
        stand_ins: Vec<StandIn>,
    ) -> Result<Inputs, AllocError> {
        Ok(Inputs {
            files: shown_files(alloc, given)?,
            places: sysmod_places(alloc, files)?,
            stand_ins,
        })
    }

    /// The files as they are shown.
    pub(crate) fn files(&self) -> &[ShownFile] {
        self.files.as_slice()
    }

    /// Where the SYSMOD begins.
    pub(crate) fn place_of(&self, id: Id) -> Option<CardPlace> {
        self.places.get(&id).copied()
    }

    /// The element as the file has it: for a stand-in, the element that it stands for.
    pub(crate) fn element(
        &self,
        alloc: Global,
        elem_type: ElemType,
        name: Name,
    ) -> Result<ShownElement, AllocError> {
        let type_word = type_text(elem_type);
        match self.stand_in(type_word, name) {
            Some(stand_in) => Ok(ShownElement {
                elem_type: shown(alloc, stand_in.word.as_slice())?,
                name: shown(alloc, stand_in.name.as_slice())?,
            }),
            None => Ok(ShownElement {
                elem_type: shown(alloc, type_word)?,
                name: shown(alloc, name.as_bytes())?,
            }),
        }
    }

    // The stand-in of this type and name. They are ordered by name and type.
    fn stand_in(&self, type_word: &[u8], name: Name) -> Option<&StandIn> {
        let found = self.stand_ins.binary_search_by(|stand_in| stand_in
            .stand_in
            .cmp(&name)
            .then(stand_in.elem_type.cmp(type_word)));
        self.stand_ins.get(found.ok()?)
    }
}
