//! The numbers of `++VER`s.

ghost use Rattle.std.specs.Prelude.{◌≡◌, ◌≤◌, ◌+◌, length, filter};
ghost use Rattle.std.specs.Str.{bytes_eq};
ghost use Rattle.store_schema.specs.Rows.{number_behind};

use fields::Srel;
use sysmods_values::Ver;

// How many of these `++VER`s are for the SREL.
fn count_for_srel(vers: &[Ver], srel: Srel) -> usize
    ensures same { result ≡ length (filter (λ ver. bytes_eq ver.srel srel) vers.now) }
    ensures most { result ≤ length vers.now }
{
    vers.iter().filter(|ver| ver.srel == srel).count()
}

/// The number of a `++VER` among those of its SREL in a SYSMOD, where `front` are all that come before it.
pub fn number_after(front: &[Ver], ver: &Ver) -> usize
    ensures same { result ≡ number_behind front.now ver.now }
    ensures most { result ≤ length front.now + 1 }
{
    count_for_srel(front, ver.srel) + 1
}
