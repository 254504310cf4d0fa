//! A service file whose statements are split over cards in every way, with a comment at every place, and cut after
//! each byte.

use crate::wide_spelled::{Spelled, items};
use std::alloc::{AllocError, Global};
use std::test::Fail;

/// No line has more than 66 columns, so that six more fit.
const SERVICE: &[u8] = b"++PTF(UA00001) REWORK(2024138) DESC(FIRST FIX).
++VER(Z038,P115) FMID(HAA1100) PRE(UA00002,UA00003)
 SUP(AA11111).
++IF FMID(HBB1100) THEN REQ(UB00001).
++HOLD(UA00001) SYS FMID(HAA1100) REASON(ACTION) DATE(24138).
++MOD(M1) DISTLIB(AOS1) RELFILE(2).
++FUNCTION(HBB1100).
++VER(Z038) DELETE(HAA1100).
++ASSIGN SOURCEID(RSU2405) TO(UA00001,UA00002).
++RELEASE(UA00009) ERR FMID(HAA1100) REASON(AA00001).
";

const ITEMS: &[u8] = b"; PTF UA00001 -REWORK(2024138) -DESC(FIRST FIX)\
    ; VER SREL Z038 P115 FMID(HAA1100) PRE UA00002 UA00003 SUP AA11111\
    ; IF FMID(HBB1100) THEN REQ UB00001\
    ; HOLD UA00001 SYSTEM REASON(ACTION) FMID(HAA1100) DATE(24138)\
    ; MOD M1 DISTLIB(AOS1) RELFILE(2) +0\
    ; FUNCTION HBB1100; VER SREL Z038 DELETE HAA1100\
    ; RELEASE UA00009 ERROR REASON(AA00001) FMID(HAA1100)\
    ; ASSIGN SOURCEID(RSU2405) TO UA00001 UA00002";

// Whether words have the character.
fn is_part_of_word(byte: u8) -> bool {
    byte.is_ascii_alphanumeric() || byte == b'+'
}

// Whether the text may be split there, because it is not inside a word.
fn is_gap(text: &[u8], at: usize) -> bool {
    let (front, back) = text.split_at(at.min(text.len()));
    match (front.last(), back.first()) {
        (Some(before), Some(after)) => !(is_part_of_word(*before) && is_part_of_word(*after)),
        _ => true,
    }
}

// The text with some more in it.
fn with_inserted(
    alloc: Global,
    text: &[u8],
    at: usize,
    more: &[u8],
) -> Result<Vec<u8>, AllocError> {
    let (front, back) = text.split_at(at.min(text.len()));
    let mut whole = Vec::new(alloc);
    whole.extend_from_slice(front)?;
    whole.extend_from_slice(more)?;
    whole.extend_from_slice(back)?;
    Ok(whole)
}

// Whether a statement begins there.
fn is_beginning(text: &[u8], at: usize) -> bool {
    let (_, back) = text.split_at(at.min(text.len()));
    back.starts_with(b"++")
}

// Whether the place is in the text of DESC in `SERVICE`, where `/*` begins no comment.
fn is_in_description(at: usize) -> bool {
    matches!(at, 36..=45)
}

// The first place at which the service file reads otherwise if this is inserted, and how it reads then. A text that is
// no whole line is not inserted before a statement, and a comment not in the text of DESC.
fn first_difference(alloc: Global, more: &[u8]) -> Result<Option<(usize, Spelled)>, AllocError> {
    for at in 0..SERVICE.len() + 1 {
        let is_comment = more.contains(&b'*');
        let moves = is_beginning(SERVICE, at) && more.last() != Some(&b'\n');
        if is_gap(SERVICE, at) && !moves && !(is_comment && is_in_description(at)) {
            let bytes = with_inserted(alloc, SERVICE, at, more)?;
            let found = items(alloc, bytes.as_slice())?;
            if found.text.as_slice() != ITEMS {
                return Ok(Some((at, found)));
            }
        }
    }
    Ok(None)
}

// Where it reads otherwise, and what is read there.
fn told(found: &Option<(usize, Spelled)>) -> (usize, &str) {
    match found {
        Some((at, spelled)) => (*at, spelled.as_text()),
        None => (0, "all alike"),
    }
}

#[test]
fn split_everywhere(rt: HostRuntime) -> Result<(), Fail> {
    let lines: [&[u8]; 3] = [b"\n", b"  \n\n", b" \n   "];
    for more in lines {
        let found = first_difference(rt.alloc(), more)?;
        assert_eq!(rt; told(&found), (0, "all alike"));
    }
    Ok(())
}

#[test]
fn comment_everywhere(rt: HostRuntime) -> Result<(), Fail> {
    let comments: [&[u8]; 3] = [
        b"/*.(*/",
        b"\n/* ONE CARD. */\n",
        b"\n /* ONE. (\n++PTF(NO00001).\n ** / */\n",
    ];
    for more in comments {
        let found = first_difference(rt.alloc(), more)?;
        assert_eq!(rt; told(&found), (0, "all alike"));
    }
    Ok(())
}

#[test]
fn cut_is_not_whole(rt: HostRuntime) -> Result<(), Fail> {
    for len in 0..SERVICE.len() {
        let (front, _) = SERVICE.split_at(len);
        let found = items(rt.alloc(), front)?;
        let is_whole = found.text.as_slice() == ITEMS;
        assert_eq!(rt; is_whole, len == SERVICE.len() - 1, "cut after {len} bytes");
    }
    Ok(())
}
