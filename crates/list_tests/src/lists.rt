//! Lists as SMP/E prints them, and what is read of them, as text.

use intake_list::{
    ListEntry, ListKey, Stands, element_keys, level_of, libraries_of, needs_of, read_entries,
    read_list, read_rows, removals_of, standing_of, unknown_keys,
};
use std::alloc::{AllocError, Global};
use std::test::Fail;
use terms::ZoneKind;

// A list with carriage control: two pages, and an entry that goes on from one to the other.
const TWO_PAGES: &[u8] =
    b"1PAGE 0001  - NOW SET TO TARGET ZONE TGT        DATE 04/30/24  TIME 09:00:00  SMP/E 37.02
0TGT     SYSMOD ENTRIES
 NAME
0AA00001   TYPE            = SUPERSEDED
           SUPBY           = UA00001
 HAA1100   TYPE            = FUNCTION
           STATUS          = REC  APP
           LASTUPD         = SMPAPPLY  TYPE=ADD
 UA00001   TYPE            = PTF
           STATUS          = REC  APP
           FMID            = HAA1100
 UA00002   TYPE            = PTF
           FMID            = HAA1100
           SUPING VER(001) = AA00002  AA00003  AA00004  AA00005  AA00006  AA00007  AA00008
                             AA00009
1PAGE 0002  - NOW SET TO TARGET ZONE TGT        DATE 04/30/24  TIME 09:00:00  SMP/E 37.02
0TGT     SYSMOD ENTRIES
 NAME
           MOD             = AMOD2
 UM00001   TYPE            = USERMOD
           STATUS          = REC  APP
           FMID            = HAA1100
           ERROR           = YES
0TGT     MOD ENTRIES
 NAME
0AMOD1     LASTUPD         = UA00001  TYPE=UPD
           LIBRARIES       = DISTLIB=AMOD
           FMID            = HAA1100
           RMID            = UA00001
           UMID            = UM00001
0GIM20501I    LIST PROCESSING IS COMPLETE. THE HIGHEST RETURN CODE WAS 00.
";

const READ_OF_TWO_PAGES: &[u8] = b"SYSMOD AA00001 superseded
  TYPE = SUPERSEDED
  SUPBY = UA00001
SYSMOD HAA1100 on
  TYPE = FUNCTION
  STATUS = REC APP
  LASTUPD = SMPAPPLY TYPE=ADD
SYSMOD UA00001 on
  TYPE = PTF
  STATUS = REC APP
  FMID = HAA1100
SYSMOD UA00002 off
  TYPE = PTF
  FMID = HAA1100
  SUPING VER 001 = AA00002 AA00003 AA00004 AA00005 AA00006 AA00007 AA00008 AA00009
  MOD = AMOD2
SYSMOD UM00001 on
  TYPE = USERMOD
  STATUS = REC APP
  FMID = HAA1100
  ERROR = YES
MOD AMOD1 off
  LASTUPD = UA00001 TYPE=UPD
  LIBRARIES = DISTLIB=AMOD
  FMID = HAA1100
  RMID = UA00001
  UMID = UM00001
";

// A list without headings, with ids in the first column. It ends within an entry, and an id does not rise.
const CUT_OFF: &[u8] = b"AA00001    TYPE = DELETED\r
           DELBY = UA00009\r
UA00002    TYPE = PTF\r
           STATUS = REC ACC\r
UA00001    TYPE = PTF\r
           STATUS = REC\r
           FMID =\r
\r
";

// Adds the words to the text, with a blank after each.
fn add_words(text: &mut Vec<u8>, words: &[&[u8]]) -> Result<(), AllocError> {
    for word in words {
        text.extend_from_slice(*word)?;
        text.push(b' ')?;
    }
    Ok(())
}

// Adds the key to the text, as a line.
fn add_key(text: &mut Vec<u8>, key: &ListKey<'_>) -> Result<(), AllocError> {
    text.extend_from_slice(b"  ")?;
    add_words(text, key.name())?;
    text.extend_from_slice(b"=")?;
    for word in key.values() {
        text.push(b' ')?;
        text.extend_from_slice(*word)?;
    }
    text.push(b'\n')?;
    Ok(())
}

// How the SYSMOD stands, as a word.
fn standing_word(entry: &ListEntry<'_>) -> &'static [u8] {
    match standing_of(entry) {
        Stands::On => b"on",
        Stands::Superseded => b"superseded",
        Stands::Deleted => b"deleted",
        Stands::Off => b"off",
    }
}

// Adds the entry to the text, with a line for each key.
fn add_entry(text: &mut Vec<u8>, entry: &ListEntry<'_>) -> Result<(), AllocError> {
    text.extend_from_slice(entry.kind())?;
    text.push(b' ')?;
    text.extend_from_slice(entry.id())?;
    text.push(b' ')?;
    text.extend_from_slice(standing_word(entry))?;
    text.push(b'\n')?;
    for key in entry.keys() {
        add_key(text, key)?;
    }
    Ok(())
}

// The entries of the list, as text.
fn entries_as_text(alloc: Global, list: &[u8]) -> Result<Vec<u8>, AllocError> {
    let rows = read_rows(alloc, list)?;
    let entries = read_entries(alloc, rows.as_slice())?;
    let mut text = Vec::new(alloc);
    for entry in &entries {
        add_entry(&mut text, entry)?;
    }
    Ok(text)
}

#[test]
fn entries_of_two_pages(rt: HostRuntime) -> Result<(), Fail> {
    let text = entries_as_text(rt.alloc(), TWO_PAGES)?;
    assert_eq!(rt; text.as_slice(), READ_OF_TWO_PAGES);
    Ok(())
}

// How many entries the text has as a list of this zone, or the message of the refusal.
fn read_as(alloc: Global, kind: ZoneKind, name: &[u8], text: &[u8]) -> Result<String, Fail> {
    match read_list(alloc, kind, name, text) {
        Ok(list) => {
            let entries = list.entries.len();
            let falls = list.falls.as_slice();
            let unread = list.unread.as_slice();
            let is_open = list.is_open;
            Ok(format!(in alloc; "{entries} {falls:?} {unread:?} {is_open}")?)
        }
        Err(error) => Ok(format!(in alloc; "{error}")?),
    }
}

#[test]
fn zone_of_two_pages(rt: HostRuntime) -> Result<(), Fail> {
    let read = read_as(rt.alloc(), ZoneKind::Target, b"TGT", TWO_PAGES)?;
    assert_eq!(rt; read.as_str(), "6 [] [31] false");
    let other = "line 1 is the heading of another zone: give the list of only this zone";
    let refused = read_as(rt.alloc(), ZoneKind::Distribution, b"TGT", TWO_PAGES)?;
    assert_eq!(rt; refused.as_str(), other);
    let refused = read_as(rt.alloc(), ZoneKind::Target, b"TGT2", TWO_PAGES)?;
    assert_eq!(rt; refused.as_str(), other);
    Ok(())
}

#[test]
fn zones_of_two_lists(rt: HostRuntime) -> Result<(), Fail> {
    let mut text = TWO_PAGES.to_vec(rt.alloc())?;
    text.extend_from_slice(b"1PAGE 0001  - NOW SET TO DLIB ZONE DLIB  DATE 04/30/24\n")?;
    let refused = read_as(rt.alloc(), ZoneKind::Target, b"TGT", text.as_slice())?;
    assert_eq!(rt;
        refused.as_str(),
        "line 32 is the heading of another zone: give the list of only this zone"
    );
    Ok(())
}

#[test]
fn signs_of_a_list_that_is_cut_off(rt: HostRuntime) -> Result<(), Fail> {
    let read = read_as(rt.alloc(), ZoneKind::Target, b"TGT", CUT_OFF)?;
    assert_eq!(rt; read.as_str(), "3 [5] [] true");
    Ok(())
}

#[test]
fn entries_of_a_list_that_is_cut_off(rt: HostRuntime) -> Result<(), Fail> {
    let text = entries_as_text(rt.alloc(), CUT_OFF)?;
    let wanted: &[u8] = b" AA00001 deleted
  TYPE = DELETED
  DELBY = UA00009
 UA00002 on
  TYPE = PTF
  STATUS = REC ACC
 UA00001 off
  TYPE = PTF
  STATUS = REC
  FMID =
";
    assert_eq!(rt; text.as_slice(), wanted);
    Ok(())
}

#[test]
fn lines_that_are_left_out(rt: HostRuntime) -> Result<(), Fail> {
    let text = b"           FMID = HAA1100
                    HAA1101
 NAME
  UA00001  = PTF
UA00001    TYPE = PTF
  ONE WORD
           STATUS = APP
";
    let read = read_as(rt.alloc(), ZoneKind::Target, b"TGT", text)?;
    assert_eq!(rt; read.as_str(), "1 [] [1, 2, 4, 6] false");
    Ok(())
}

// The values of the keys of the entry of this name: those of elements, and then those that are not known.
fn elements_and_unknown(alloc: Global, id: &[u8], list: &[u8]) -> Result<Vec<u8>, Fail> {
    let rows = read_rows(alloc, list)?;
    let entries = read_entries(alloc, rows.as_slice())?;
    let mut text = Vec::new(alloc);
    for entry in &entries {
        if entry.id() == id {
            for key in &element_keys(alloc, entry)? {
                add_key(&mut text, *key)?;
            }
            text.extend_from_slice(b"not known\n")?;
            for key in &unknown_keys(alloc, entry)? {
                add_key(&mut text, *key)?;
            }
        }
    }
    Ok(text)
}

#[test]
fn keys_of_an_entry(rt: HostRuntime) -> Result<(), Fail> {
    let of_ptf = elements_and_unknown(rt.alloc(), b"UA00002", TWO_PAGES)?;
    assert_eq!(rt; of_ptf.as_slice(), b"  MOD = AMOD2\nnot known\n".as_slice());
    let of_function = elements_and_unknown(rt.alloc(), b"HAA1100", TWO_PAGES)?;
    assert_eq!(rt;
        of_function.as_slice(),
        b"not known\n  LASTUPD = SMPAPPLY TYPE=ADD\n".as_slice()
    );
    let text = b"HAA1100  HELPENU = H1 H2
         UNIX3 = U1
         HELPEN = X
         UNIX7 = Y
         DATA = D1
";
    let of_data = elements_and_unknown(rt.alloc(), b"HAA1100", text)?;
    let wanted: &[u8] = b"  HELPENU = H1 H2
  UNIX3 = U1
  DATA = D1
not known
  HELPEN = X
  UNIX7 = Y
";
    assert_eq!(rt; of_data.as_slice(), wanted);
    Ok(())
}

// What the entries require, supersede and are at, as text.
fn add_lists(alloc: Global, text: &mut Vec<u8>, entry: &ListEntry<'_>) -> Result<(), AllocError> {
    let needs = needs_of(alloc, entry)?;
    let removals = removals_of(alloc, entry)?;
    let level = level_of(alloc, entry)?;
    let libraries = libraries_of(alloc, entry)?;
    add_words(text, needs.fmid.as_slice())?;
    text.push(b'/')?;
    add_words(text, removals.sups.as_slice())?;
    text.push(b'/')?;
    add_words(text, removals.sup_by.as_slice())?;
    text.push(b'/')?;
    add_words(text, level.umids.as_slice())?;
    text.push(b'/')?;
    add_words(text, libraries.libraries.as_slice())?;
    text.push(b'\n')?;
    Ok(())
}

#[test]
fn lists_of_entries(rt: HostRuntime) -> Result<(), Fail> {
    let rows = read_rows(rt.alloc(), TWO_PAGES)?;
    let entries = read_entries(rt.alloc(), rows.as_slice())?;
    let mut text = Vec::new(rt.alloc());
    for entry in &entries {
        add_lists(rt.alloc(), &mut text, entry)?;
    }
    let wanted: &[u8] = b"//UA00001 //
////
HAA1100 ////
HAA1100 /AA00002 AA00003 AA00004 AA00005 AA00006 AA00007 AA00008 AA00009 ///
HAA1100 ////
HAA1100 ///UM00001 /DISTLIB=AMOD 
";
    assert_eq!(rt; text.as_slice(), wanted);
    Ok(())
}
