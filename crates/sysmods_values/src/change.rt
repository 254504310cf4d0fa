//! Element statements.
ghost use Rattle.std.specs.Prelude.{◌≡◌, ◌&&◌, ◌==◌, Some};
ghost use Rattle.std.specs.Str.{bytes_eq};
ghost use Rattle.terms.specs.Types.{type_number};
ghost use Rattle.terms.specs.Changes.{is_replacement};
ghost use Rattle.terms.specs.Global.{change_cmp};
ghost use Rattle.terms.specs.Statements.{changed_type};
ghost use Rattle.sysmods_values.specs.Views.{IsWordOf};

use fields::Name;
use std::cmp::Ordering;
use std::marker::Model;
use terms::{ElemType, StatementWord};
use text80::{Line, Update};

/// What an element statement does. An update has all records after `++MACUPD` or `++SRCUPD`, including `./` records.
#[derive(Drop)]
pub enum Action {
    Replaces {
        distlib: Name,
        syslib: Name,
        lines: Vec<Line>,
    },
    Updates {
        update: Update,
    },
}

/// An element statement of a SYSMOD.
#[derive(Drop)]
pub struct ElemChange {
    pub elem_type: ElemType,
    pub name: Name,
    pub action: Action,
}

impl Model for ElemChange {
    ghost use Rattle.terms.specs.Types as terms;

    ghost Value = { terms.Change };

    ghost use Rattle.sysmods_values.specs.Views.{action_of};
    ghost use Rattle.terms.specs.Texts.{IsActionOf};

    ghost view = { λ a. record { elem_type = a.elem_type; name = a.name; action = action_of a.action } };

    ghost invariant = { λ a. IsActionOf a.elem_type a.name (action_of a.action) };
}

impl ElemChange {
    /// Compares the elements that the two statements change, by type and then by name.
    pub fn cmp_element(&self, other: &ElemChange) -> Ordering
        ensures { result ≡ change_cmp self.now other.now }
    {
        self.elem_type
            .cmp(&other.elem_type)
            .then(self.name.cmp(&other.name))
    }

    /// Whether it is about the element of this type and name.
    pub fn is_about(&self, elem_type: ElemType, name: Name) -> bool
        ensures { result
            ≡ ((type_number self.now.elem_type == type_number elem_type) && bytes_eq self.now.name name) }
    {
        self.elem_type == elem_type && self.name == name
    }

    /// Whether it replaces its element. If not, it updates the element.
    pub fn is_replacement(&self) -> bool
        ensures { result ≡ is_replacement self.now.action }
    {
        match &self.action {
            Action::Replaces { .. } => true,
            Action::Updates { .. } => false,
        }
    }

    /// The word that begins the statement, as `++MAC` or `++MACUPD`.
    pub fn word(&self) -> StatementWord
        ensures element { changed_type result ≡ Some self.now.elem_type }
        ensures action { IsWordOf self.now.action result }
    {
        match &self.action {
            Action::Replaces { .. } => StatementWord::Replace(self.elem_type),
            Action::Updates { .. } => match self.elem_type.update_word() {
                Some(word) => word,
                None => unreachable!(),
            },
        }
    }
}
