//! The code and the layout of a file, guessed from its bytes.
use crate::code::{Code, Layout, RECORD};
use crate::errors::CardError;

/// How many bytes show whether a file has lines: the columns of a card, and the two characters that may end a line.
const LONGEST_LINE: usize = 82;

/// How many bytes the length before a record has: two of the number, and two zeros.
const LENGTH_BYTES: usize = 4;

// The code of the bytes, if they begin a statement: two plus signs (X'4E' in EBCDIC) and a letter (from X'80' on).
fn statement_code(bytes: &[u8]) -> Option<Code> {
    match bytes {
        [b'+', b'+', letter, ..] if letter.is_ascii_alphabetic() => Some(Code::Ascii),
        [0x4E, 0x4E, letter, ..] if *letter >= 0x80 => Some(Code::Ibm1047),
        _ => None,
    }
}

// Whether the byte ends a line in one of the codes.
fn may_end_line(byte: u8) -> bool {
    Code::Ascii.ends_line(byte) || Code::Ibm1047.ends_line(byte)
}

// The code of the first statement, which begins a line or a record.
fn first_statement_code(bytes: &[u8]) -> Option<Code> {
    let mut before = b'\n';
    for (i, three) in bytes.windows(3).enumerate() {
        if may_end_line(before) || i % RECORD == 0 {
            let code = statement_code(three);
            if code.is_some() {
                return code;
            }
        }
        before = three[0];
    }
    None
}

// Whether most bytes are blanks (X'40') or have codes from X'80' on, as the letters and digits of EBCDIC have.
fn is_mostly_ebcdic(bytes: &[u8]) -> bool {
    let high = bytes
        .iter()
        .filter(|byte| **byte >= 0x80 || **byte == 0x40)
        .count();
    high > bytes.len() / 2
}

/// The code of the first statement, or of most bytes if there is no statement. EBCDIC is taken for IBM-1047.
pub(crate) fn guess_code(bytes: &[u8]) -> Code {
    if let Some(code) = first_statement_code(bytes) {
        return code;
    }
    if is_mostly_ebcdic(bytes) {
        Code::Ibm1047
    } else {
        Code::Ascii
    }
}

/// How the file is laid out: in records, if 80 divides its length, with or without its padding, and no line ends within
/// the first bytes. Otherwise it is in lines.
pub(crate) fn guess_layout(bytes: &[u8], code: Code) -> Layout {
    let has_whole_records = bytes.len() % RECORD == 0
        || without_padding(bytes, code).len() % RECORD == 0;
    let has_line = bytes
        .iter()
        .take(LONGEST_LINE)
        .any(|byte| code.ends_line(*byte));
    if has_whole_records && !has_line {
        Layout::Records
    } else {
        Layout::Text
    }
}

/// The bytes up to the last one that does not pad the file.
pub(crate) fn without_padding(bytes: &[u8], code: Code) -> &[u8] {
    match bytes.iter().rposition(|byte| !code.is_padding(*byte)) {
        Some(last) => &bytes[..last + 1],
        None => b"",
    }
}

/// Why the bytes cannot be read as lines or records with one byte for each column, if their beginning shows it.
pub(crate) fn unreadable_format(bytes: &[u8]) -> Option<CardError> {
    match bytes {
        [0x1F, 0x8B, ..] => Some(CardError::Compressed),
        [0xFF, 0xFE, ..] | [0xFE, 0xFF, ..] => Some(CardError::Utf16),
        [b'+', 0, b'+', 0, ..] | [0, b'+', 0, b'+', ..] => Some(CardError::Utf16),
        [high, low, 0, 0, ..] if is_record_length(bytes, u16::from_be_bytes([*high, *low])) => Some(
            CardError::RecordLengths,
        ),
        _ => None,
    }
}

// Whether the first record has this length, which counts its own bytes too, and either the file ends there or the next
// record begins with a length.
fn is_record_length(bytes: &[u8], length: u16) -> bool {
    let length = usize::from(length);
    match bytes.split_at_checked(length) {
        Some((_, rest)) => length > LENGTH_BYTES && matches!(rest, [] | [_, _, 0, 0, ..]),
        None => false,
    }
}

/// Whether lines end with carriage returns, and none with a line feed.
pub(crate) fn has_bare_returns(bytes: &[u8]) -> bool {
    bytes.contains(&b'\r') && !bytes.contains(&b'\n')
}
