//! Parts of SYSMODs and of changes, by calls whose contracts say them of their values.
ghost use Rattle.std.specs.Prelude.{◌≡◌};
ghost use Rattle.intake_elements.specs.StandInNames.{key_of};

use fields::Id;
use intake_elements::change_key;
use sysmods_values::{ElemChange, Sysmod, Ver};

/// The id of the SYSMOD.
pub(crate) fn id_of(sysmod: &Sysmod) -> Id
    ensures { result ≡ sysmod.now.id }
{
    sysmod.id
}

/// The key of the element that the change changes.
pub(crate) fn key_of(change: &ElemChange) -> u64
    ensures { result ≡ key_of change.now.elem_type change.now.name }
{
    change_key(change.elem_type, change.name.as_bytes())
}

/// The `++VER`s of the SYSMOD.
pub(crate) fn vers_of(sysmod: &Sysmod) -> &[Ver]
    ensures { result.now ≡ sysmod.now.vers }
{
    sysmod.vers.as_slice()
}

/// The changes of the SYSMOD.
pub(crate) fn changes_of(sysmod: &Sysmod) -> &[ElemChange]
    ensures { result.now ≡ sysmod.now.changes }
{
    sysmod.changes.as_slice()
}
