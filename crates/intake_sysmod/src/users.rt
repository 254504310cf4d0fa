//! The users of elements, as a value: the SYSMODs of the files that change an element.
ghost use Rattle.std.specs.Prelude.{◌≡◌, IfOk, IsTrue, true};
ghost use Rattle.intake_elements.specs.Elements.{LacksNothing};
ghost use Rattle.intake_sysmod.specs.Users.{run_of, IsAlone};

use crate::element_users::{ElementUser, is_only_user_of_all, known_users};
use intake_elements::{Options, keys_of, lacks_nothing};
use intake_read::{WideElement, WideFile, WideSysmod};
use std::alloc::{AllocError, Global};
use std::collections::BTreeMap;
use std::marker::Model;

/// Which SYSMODs of the files change an element. A contract sees it as the SYSMODs of the files.
#[derive(Drop)]
pub struct Users<'a> {
    files: &'a [WideFile],
    by_key: BTreeMap<u64, ElementUser>,
}

impl<'a> Model for Users<'a> {
    ghost use Rattle.std.specs.Prelude.{List};
    ghost use Rattle.intake_read.specs.declared.items.WideSysmod.{WideSysmod as AnySysmod};

    ghost Value = { List AnySysmod };

    ghost use Rattle.intake_sysmod.specs.Users.{run_of, KnowsRun};

    ghost view = { λ a. run_of a.files.now };

    ghost invariant = { λ a. KnowsRun a.by_key (run_of a.files.now) };
}

impl<'a> Users<'a> {
    /// The SYSMODs of the files by the elements that they change, if the options ask for stand-ins.
    pub fn of_files(
        alloc: Global,
        options: &Options,
        files: &'a [WideFile],
    ) -> Result<Users<'a>, AllocError>
        ensures { IfOk result (λ users. users ≡ run_of files.now) }
    {
        let by_key = known_users(alloc, options, files)?;
        Ok(Users { files, by_key })
    }

    /// Whether it is known that only this SYSMOD changes what the element statement changes, and no operand of the
    /// statement decides more.
    pub(crate) fn has_no_other_user(
        &self,
        alloc: Global,
        stated: &WideSysmod,
        element: &WideElement,
    ) -> Result<bool, AllocError>
        ensures { IfOk result (λ alone. IsTrue alone → LacksNothing true element.now
            × IsAlone self.now stated.now.id.items element.now) }
    {
        if !lacks_nothing(element) {
            return Ok(false);
        }
        let keys = keys_of(alloc, element)?;
        Ok(is_only_user_of_all(&self.by_key, keys.as_slice(), stated.id.as_slice()))
    }
}
