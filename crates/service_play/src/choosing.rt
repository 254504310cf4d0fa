//! Which `++VER`s count.

use crate::printed::append_line;
use crate::putting::read_ids;
use crate::shop::Shop;
use fields::Id;
use std::alloc::Global;
use std::test::Fail;
use sysmods::VerChoice;
use zones::counting_vers;

/// Prints which `++VER` of each of these ids counts in the target zone if they are the candidates.
pub(crate) fn append_counting_vers(
    alloc: Global,
    shop: &Shop,
    cards: &str,
    printed: &mut Vec<u8>,
) -> Result<(), Fail> {
    let ids = read_ids(alloc, cards)?;
    let vers = counting_vers(alloc, &shop.global, &shop.target, &ids)?;
    for id in ids.as_slice() {
        append_counting_ver(alloc, &vers, *id, printed)?;
    }
    Ok(())
}

// Prints the number and the FMID of the `++VER` of this id that counts, if one does.
fn append_counting_ver(
    alloc: Global,
    vers: &VerChoice<'_>,
    id: Id,
    printed: &mut Vec<u8>,
) -> Result<(), Fail> {
    let Some(ver) = vers.ver(id) else {
        return Ok(append_line(&[b"VER", id.as_bytes(), b"-"], printed)?);
    };
    let number = format!(in alloc; "{}", vers.number(id).get())?;
    append_line(&[b"VER", id.as_bytes(), number.as_bytes()], printed)?;
    if let Some(fmid) = ver.fmid {
        append_line(&[b"  FMID", fmid.as_bytes()], printed)?;
    }
    Ok(())
}
