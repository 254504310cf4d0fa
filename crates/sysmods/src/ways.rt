//! The ways in which SYSMODs name ids.
ghost use Rattle.std.specs.Prelude.{◌≡◌};
ghost use Rattle.sysmods.specs.Ways.{names_so};

use fields::Id;
use sysmods_values::Sysmod;

/// How one of a SYSMOD's `++VER`s names an id.
#[derive(Clone, Copy)]
pub(crate) enum Way {
    /// In PRE, SUP or FMID, by which SYSMODs are over others.
    Named,
    /// In SUP.
    Superseded,
    /// In DELETE, FMID or an `++IF`, which name functions only.
    AsFunction,
}

impl Way {
    /// Whether the SYSMOD names the id in this way.
    pub(crate) fn is_used_by(self, sysmod: &Sysmod, id: Id) -> bool
        ensures { result ≡ names_so self id sysmod.now }
    {
        match self {
            Way::Named => sysmod.names(id),
            Way::Superseded => sysmod.supersedes(id),
            Way::AsFunction => sysmod.names_function(id),
        }
    }
}
