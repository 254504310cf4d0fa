//! The keys that are known: those of SYSMODs and elements, and those that name elements.
ghost use Rattle.std.specs.Prelude.{◌≡◌, ◌≤◌, ◌-◌, IfOk, map, length, take, drop};
ghost use Rattle.std.specs.List.{list_all};
ghost use Rattle.intake_list.specs.Typed.{
  is_module_word,
  is_source_word,
  is_book_word,
  is_panel_word,
  is_data_word,
  is_file_word,
  is_plain_word,
  is_letter,
  is_small_digit,
  is_national_word,
  is_numbered_word,
  is_element_word,
  is_element_key,
  is_need_word,
  is_removal_word,
  is_other_word,
  is_level_word,
  is_known_word,
  is_unknown_key,
  element_keys,
  unknown_keys,
};

use crate::entry::{ListEntry, ListKey};
use crate::list_words::word_at;
use std::alloc::{AllocError, Global};

// Whether the key names modules or programs.
fn is_module_word(word: &[u8]) -> bool
    ensures { result ≡ is_module_word word.now }
{
    word == b"MOD".as_slice()
        || word == b"ZAP".as_slice()
        || word == b"SZAP".as_slice()
        || word == b"XZAP".as_slice()
        || word == b"PROGRAM".as_slice()
        || word == b"JAR".as_slice()
        || word == b"JARUPD".as_slice()
}

// Whether the key names macros or sources.
fn is_source_word(word: &[u8]) -> bool
    ensures { result ≡ is_source_word word.now }
{
    word == b"MAC".as_slice()
        || word == b"MACUPD".as_slice()
        || word == b"SRC".as_slice()
        || word == b"SRCUPD".as_slice()
}

// Whether the key names books, fonts or images.
fn is_book_word(word: &[u8]) -> bool
    ensures { result ≡ is_book_word word.now }
{
    word == b"BOOK".as_slice()
        || word == b"BSIND".as_slice()
        || word == b"CGM".as_slice()
        || word == b"FONT".as_slice()
        || word == b"GDF".as_slice()
        || word == b"IMG".as_slice()
        || word == b"PSEG".as_slice()
        || word == b"PUBLB".as_slice()
}

// Whether the key names panels, messages or texts.
fn is_panel_word(word: &[u8]) -> bool
    ensures { result ≡ is_panel_word word.now }
{
    word == b"CLIST".as_slice()
        || word == b"EXEC".as_slice()
        || word == b"HELP".as_slice()
        || word == b"MSG".as_slice()
        || word == b"PNL".as_slice()
        || word == b"SKL".as_slice()
        || word == b"TBL".as_slice()
        || word == b"TEXT".as_slice()
}

// Whether the key names data, procedures or samples.
fn is_data_word(word: &[u8]) -> bool
    ensures { result ≡ is_data_word word.now }
{
    word == b"DATA".as_slice()
        || word == b"PARM".as_slice()
        || word == b"PROC".as_slice()
        || word == b"PROBJ".as_slice()
        || word == b"PRODXML".as_slice()
        || word == b"PRSRC".as_slice()
        || word == b"SAMP".as_slice()
        || word == b"USER".as_slice()
}

// Whether the key names files of a file system, or data of a utility.
fn is_file_word(word: &[u8]) -> bool
    ensures { result ≡ is_file_word word.now }
{
    word == b"HFS".as_slice()
        || word == b"AIX".as_slice()
        || word == b"CLIENT".as_slice()
        || word == b"OS2".as_slice()
        || word == b"UNIX".as_slice()
        || word == b"WIN".as_slice()
        || word == b"SHELLSCR".as_slice()
        || word == b"UTIN".as_slice()
        || word == b"UTOUT".as_slice()
}

// Whether the key says how a SYSMOD stands, or names its function or its requisites.
fn is_need_word(word: &[u8]) -> bool
    ensures { result ≡ is_need_word word.now }
{
    word == b"FMID".as_slice()
        || word == b"PRE".as_slice()
        || word == b"REQ".as_slice()
        || word == b"IFREQ".as_slice()
        || word == b"CIFREQ".as_slice()
        || word == b"TYPE".as_slice()
        || word == b"STATUS".as_slice()
        || word == b"ERROR".as_slice()
}

// Whether the key names what a SYSMOD supersedes or deletes, or the SYSMODs that do so to it.
fn is_removal_word(word: &[u8]) -> bool
    ensures { result ≡ is_removal_word word.now }
{
    word == b"SUPING".as_slice()
        || word == b"SUP".as_slice()
        || word == b"SUPBY".as_slice()
        || word == b"LASTSUP".as_slice()
        || word == b"DELETE".as_slice()
        || word == b"DELBY".as_slice()
}

// Whether the key is NPRE, VERSION, REWORK or INS.
fn is_other_word(word: &[u8]) -> bool
    ensures { result ≡ is_other_word word.now }
{
    word == b"NPRE".as_slice()
        || word == b"VERSION".as_slice()
        || word == b"REWORK".as_slice()
        || word == b"INS".as_slice()
}

// Whether the key gives the level of an element or its libraries.
fn is_level_word(word: &[u8]) -> bool
    ensures { result ≡ is_level_word word.now }
{
    word == b"RMID".as_slice()
        || word == b"UMID".as_slice()
        || word == b"DISTLIB".as_slice()
        || word == b"SYSLIB".as_slice()
        || word == b"LIBRARIES".as_slice()
}

// Whether the key names data elements, without a national language.
fn is_plain_word(word: &[u8]) -> bool
    ensures { result ≡ is_plain_word word.now }
{
    is_book_word(word) || is_panel_word(word) || is_data_word(word) || is_file_word(word)
}

// Whether the character is a capital letter.
fn is_letter(byte: u8) -> bool
    ensures { result ≡ is_letter byte }
{
    b'A' <= byte && byte <= b'Z'
}

// Whether the character is a digit from 1 to 6.
fn is_small_digit(byte: u8) -> bool
    ensures { result ≡ is_small_digit byte }
{
    b'1' <= byte && byte <= b'6'
}

// Whether the text has only capital letters.
fn are_letters(text: &[u8]) -> bool
    ensures { result ≡ list_all is_letter text.now }
{
    text.iter().all(|byte| is_letter(*byte))
}

// Whether the text has only digits from 1 to 6.
fn are_small_digits(text: &[u8]) -> bool
    ensures { result ≡ list_all is_small_digit text.now }
{
    text.iter().all(|byte| is_small_digit(*byte))
}

// The text before the last characters, so many of them.
fn front(word: &[u8], count: usize) -> &[u8]
    requires { count ≤ length word.now }
    ensures { result.now ≡ take (length word.now - count) word.now }
{
    &word[..word.len() - count]
}

// The last characters, so many of them.
fn back(word: &[u8], count: usize) -> &[u8]
    requires { count ≤ length word.now }
    ensures { result.now ≡ drop (length word.now - count) word.now }
{
    &word[word.len() - count..]
}

// Whether the key names data elements in a national language, with three letters for it at the end.
fn is_national_word(word: &[u8]) -> bool
    ensures { result ≡ is_national_word word.now }
{
    if word.len() > 3 {
        is_plain_word(front(word, 3)) && are_letters(back(word, 3))
    } else {
        false
    }
}

// Whether the key names data elements, with a digit at the end.
fn is_numbered_word(word: &[u8]) -> bool
    ensures { result ≡ is_numbered_word word.now }
{
    if word.len() > 1 {
        is_plain_word(front(word, 1)) && are_small_digits(back(word, 1))
    } else {
        false
    }
}

// Whether a key of this name names elements.
fn is_element_word(word: &[u8]) -> bool
    ensures { result ≡ is_element_word word.now }
{
    is_module_word(word)
        || is_source_word(word)
        || is_plain_word(word)
        || is_national_word(word)
        || is_numbered_word(word)
}

// Whether a key of this name is known.
fn is_known_word(word: &[u8]) -> bool
    ensures { result ≡ is_known_word word.now }
{
    is_need_word(word)
        || is_removal_word(word)
        || is_other_word(word)
        || is_level_word(word)
        || is_element_word(word)
}

// Whether the key names elements that a SYSMOD has.
fn is_element_key(key: &ListKey<'_>) -> bool
    ensures { result ≡ is_element_key key.now }
{
    is_element_word(word_at(key.name(), 0))
}

// Whether the key is not known.
fn is_unknown_key(key: &ListKey<'_>) -> bool
    ensures { result ≡ is_unknown_key key.now }
{
    !is_known_word(word_at(key.name(), 0))
}

/// The keys that name elements of the SYSMOD. The values of such a key are their names.
pub fn element_keys<'e, 'a>(
    alloc: Global,
    entry: &'e ListEntry<'a>,
) -> Result<Vec<&'e ListKey<'a>>, AllocError>
    ensures { IfOk result (λ keys. map (λ key. key.now) keys.items ≡ element_keys entry.now) }
{
    let keys = entry.keys();
    keys.iter()
        .filter(|key| is_element_key(*key))
        .collect(alloc)
}

/// The keys that are not known. Each has its line.
pub fn unknown_keys<'e, 'a>(
    alloc: Global,
    entry: &'e ListEntry<'a>,
) -> Result<Vec<&'e ListKey<'a>>, AllocError>
    ensures { IfOk result (λ keys. map (λ key. key.now) keys.items ≡ unknown_keys entry.now) }
{
    let keys = entry.keys();
    keys.iter()
        .filter(|key| is_unknown_key(*key))
        .collect(alloc)
}
