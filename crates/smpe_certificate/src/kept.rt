//! The ids of the kept candidates.
ghost use Rattle.std.specs.Prelude.{◌≡◌, IfOk, length};
ghost use Rattle.terms.specs.Lookups.{IsRising};
ghost use Rattle.smpe_certificate.specs.ByNumber.{AreKeptIds};

use fields::{Id, IdList};
use std::alloc::{AllocError, Global};

/// The ids of the kept candidates. `flags` says of each candidate, by its place, whether it is kept.
pub(crate) fn kept_ids(alloc: Global, ids: &[Id], flags: &[bool]) -> Result<IdList, AllocError>
    requires { length flags.now ≡ length ids.now }
    ensures members { IfOk result (λ kept. AreKeptIds ids.now flags.now kept) }
    ensures rising { IfOk result (λ kept. IsRising kept) }
{
    let mut kept = Vec::new(alloc);
    for i in 0..ids.len() {
        if !flags[i] {
            continue;
        }
        kept.push(ids[i])?;
    }
    Ok(IdList::from_vec(kept))
}
