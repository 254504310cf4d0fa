//! The elements whose texts are in files of `--relfile`.

use fields::{Id, Name};
use intake_cards::CardPlace;
use intake_read::{WideElement, WideFile};
use std::alloc::{AllocError, Global};

/// The most digits that the number of a RELFILE may have.
const MOST_DIGITS: usize = 4;

/// The number of a RELFILE, and the id of the SYSMOD that has it, or `None` if several have one of this number.
#[derive(Drop)]
struct RelfileUser<'a> {
    number: &'a [u8],
    id: Option<&'a [u8]>,
}

/// An element whose text is in a file of the folder.
#[derive(Clone, Copy)]
pub struct RelfileElement<'a> {
    id: &'a [u8],
    number: &'a [u8],
    name: &'a [u8],
    /// Where its statement begins.
    pub place: CardPlace,
    /// No other SYSMOD has a RELFILE of its number.
    pub is_only_user: bool,
}

impl RelfileElement<'_> {
    /// The path of its file in a folder of its SYSMOD's own.
    pub fn own_path(&self, alloc: Global, folder: &str) -> Result<String, AllocError> {
        let id = String::from_utf8_lossy(alloc, self.id)?;
        let number = String::from_utf8_lossy(alloc, self.number)?;
        let name = String::from_utf8_lossy(alloc, self.name)?;
        format!(in alloc; "{folder}/{id}/F{number}/{name}")
    }

    /// The path of its file in a folder without the name of a SYSMOD.
    pub fn shared_path(&self, alloc: Global, folder: &str) -> Result<String, AllocError> {
        let number = String::from_utf8_lossy(alloc, self.number)?;
        let name = String::from_utf8_lossy(alloc, self.name)?;
        format!(in alloc; "{folder}/F{number}/{name}")
    }
}

/// The elements with RELFILE. Left out are those without a number in RELFILE, and those whose own name or whose
/// SYSMOD's id has not the form of one.
pub fn relfile_elements<'a>(
    alloc: Global,
    files: &'a [WideFile],
) -> Result<Vec<RelfileElement<'a>>, AllocError> {
    let mut elements = Vec::new(alloc);
    for file in files {
        for sysmod in &file.sysmods {
            for element in &sysmod.elements {
                if let Some(relfile) = relfile_element(sysmod.id.as_slice(), element) {
                    elements.push(relfile)?;
                }
            }
        }
    }
    let users = relfile_users(alloc, elements.as_slice())?;
    for element in elements.iter_mut() {
        element.is_only_user = is_only_user_of_number(users.as_slice(), element);
    }
    Ok(elements)
}

// The element as one with RELFILE, or `None` if it has no number there, or its name or the id has not the form of one.
fn relfile_element<'a>(id: &'a [u8], element: &'a WideElement) -> Option<RelfileElement<'a>> {
    let number = element.relfile.as_ref()?.as_slice();
    let name = element.name.as_slice();
    if Id::read(id).is_none() || Name::read(name).is_none() || !is_relfile_number(number) {
        return None;
    }
    Some(RelfileElement {
        id,
        number,
        name,
        place: element.place,
        is_only_user: false,
    })
}

// Whether the text is a number that RELFILE may have.
fn is_relfile_number(text: &[u8]) -> bool {
    !text.is_empty() && text.len() <= MOST_DIGITS && text.iter().all(|byte| byte.is_ascii_digit())
}

// The numbers of all RELFILEs, each once, with the SYSMOD that has it if there is only one.
fn relfile_users<'a>(
    alloc: Global,
    elements: &[RelfileElement<'a>],
) -> Result<Vec<RelfileUser<'a>>, AllocError> {
    let mut users: Vec<RelfileUser<'a>> = Vec::new(alloc);
    for element in elements {
        match users.iter_mut().find(|user| user.number == element.number) {
            Some(user) => {
                if user.id != Some(element.id) {
                    user.id = None;
                }
            }
            None => users.push(RelfileUser {
                number: element.number,
                id: Some(element.id),
            })?,
        }
    }
    Ok(users)
}

// Whether no other SYSMOD has a RELFILE of the element's number.
fn is_only_user_of_number(users: &[RelfileUser<'_>], element: &RelfileElement<'_>) -> bool {
    users.iter().any(|user| user.number == element.number && user.id == Some(element.id))
}
