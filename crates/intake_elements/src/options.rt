//! The options of the caller.
ghost use Rattle.std.specs.Prelude.{◌≡◌};

use fields::Name;
use intake_read::{Card, CardPlace};

/// The SYSLIB of elements that state this DISTLIB but no SYSLIB.
#[derive(Clone, Copy, Debug)]
pub struct Syslib {
    pub distlib: Name,
    pub syslib: Name,
}

/// The libraries of a replacement.
#[derive(Clone, Copy)]
pub(crate) struct Libraries {
    pub(crate) distlib: Name,
    pub(crate) syslib: Name,
}

/// The text of an element that is in a file of its own.
#[derive(Drop)]
pub struct RelfileMember {
    /// Where the element's statement begins.
    pub element: CardPlace,
    pub cards: Vec<Card>,
}

/// How statements are carried.
#[derive(Drop)]
pub struct Options {
    /// Whether elements that cannot be carried have stand-ins, so that what the SYSMODs need can be decided.
    pub decide: bool,
    /// The first one for a DISTLIB counts.
    pub syslibs: Vec<Syslib>,
    /// At most one for each element.
    pub members: Vec<RelfileMember>,
}

impl Options {
    /// The SYSLIB that the caller names for the DISTLIB, or `None` if there is none.
    pub(crate) fn syslib_for(&self, distlib: Name) -> Option<Name> {
        self.syslibs
            .iter()
            .find(|pair| pair.distlib == distlib)
            .map(|pair| pair.syslib)
    }

    /// The file with the text of the element whose statement begins at this place, or `None` if there is none. Call
    /// `sort_members` first.
    pub(crate) fn relfile_member(&self, element: CardPlace) -> Option<&RelfileMember> {
        let place = self
            .members
            .binary_search_by_key(&element, |member| member.element)
            .ok()?;
        self.members.get(place)
    }

    /// Sorts the members by the places of their elements, so that the text of an element is found.
    pub fn sort_members(&mut self)
        ensures { self.new.decide ≡ self.old.decide }
    {
        self.members
            .sort_unstable_by(|first, second| first.element.cmp(&second.element));
    }
}
