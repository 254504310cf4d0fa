//! Files as cards: lines and records, the codes, and what no card should have.

use intake_cards::{CardError, CardNoteReason, CardPlace, Cards, Code, Layout, Tail, read_cards};
use std::alloc::{AllocError, Global};
use std::process::Abort;
use std::test::Fail;

/// A blank in EBCDIC.
const EBCDIC_BLANK: u8 = 0x40;

/// `++PTF(UA00001).` in EBCDIC.
const PTF: &[u8] = b"\x4E\x4E\xD7\xE3\xC6\x4D\xE4\xC1\xF0\xF0\xF0\xF0\xF1\x5D\x4B";

/// `SET BDY(A$#@).` in EBCDIC.
const SET: &[u8] = b"\xE2\xC5\xE3\x40\xC2\xC4\xE8\x4D\xC1\x5B\x7B\x7C\x5D\x4B";

// 80 columns with this text at the beginning, and this blank after it.
fn padded(text: &[u8], blank: u8) -> [u8; 80] {
    let mut columns = [blank; 80];
    for (column, byte) in columns.iter_mut().zip(text) {
        *column = *byte;
    }
    columns
}

// A card with this text at its beginning.
fn card_text(text: &[u8]) -> [u8; 80] {
    padded(text, b' ')
}

// A record of EBCDIC with this text at its beginning.
fn ebcdic_record(text: &[u8]) -> [u8; 80] {
    padded(text, EBCDIC_BLANK)
}

// The texts of cards, one after the other.
fn texts(alloc: Global, cards: &Cards) -> Result<Vec<u8>, AllocError> {
    let mut all = Vec::new(alloc);
    for card in cards.cards.as_slice() {
        all.extend_from_slice(&card.text)?;
    }
    Ok(all)
}

// Records with these texts.
fn records(alloc: Global, lines: &[&[u8]]) -> Result<Vec<u8>, AllocError> {
    let mut all = Vec::new(alloc);
    for line in lines {
        all.extend_from_slice(&card_text(line))?;
    }
    Ok(all)
}

// Fails unless the cards have these texts.
fn check_texts(rt: &impl Abort, alloc: Global, cards: &Cards, lines: &[&[u8]]) -> Result<(), Fail> {
    let wanted = records(alloc, lines)?;
    assert_eq!(rt; texts(alloc, cards)?.as_slice(), wanted.as_slice());
    Ok(())
}

#[test]
fn lines_may_end_in_each_way(rt: HostRuntime) -> Result<(), Fail> {
    let lines: [&[u8]; 3] = [b"++PTF(UA00001).", b"", b" /*X*/"];
    let files: [&[u8]; 3] = [
        b"++PTF(UA00001).\n\n /*X*/\n",
        b"++PTF(UA00001).\r\n\r\n /*X*/\r\n",
        b"++PTF(UA00001).\n\n /*X*/",
    ];
    for file in files {
        let cards = read_cards(rt.alloc(), 3, file, None, None)?;
        assert_eq!(rt; (cards.layout, cards.code), (Layout::Text, Code::Ascii));
        check_texts(&rt, rt.alloc(), &cards, &lines)?;
        let last = cards.cards.last().ok_or("no card")?;
        assert_eq!(rt; last.place, CardPlace { file: 3, card: 3 });
        assert!(rt; cards.notes.is_empty());
    }
    Ok(())
}

#[test]
fn a_file_of_records_is_told(rt: HostRuntime) -> Result<(), Fail> {
    let lines: [&[u8]; 2] = [b"++PTF(UA00001).", b"++VER(Z038)."];
    let records = records(rt.alloc(), &lines)?;
    let cards = read_cards(rt.alloc(), 0, records.as_slice(), None, None)?;
    assert_eq!(rt; (cards.layout, cards.code), (Layout::Records, Code::Ascii));
    check_texts(&rt, rt.alloc(), &cards, &lines)?;
    let none = read_cards(rt.alloc(), 0, b"", None, None)?;
    assert!(rt; none.cards.is_empty());
    Ok(())
}

#[test]
fn ebcdic_is_told(rt: HostRuntime) -> Result<(), Fail> {
    let mut records = Vec::new(rt.alloc());
    records.extend_from_slice(&ebcdic_record(PTF))?;
    records.extend_from_slice(&ebcdic_record(SET))?;
    records.extend_from_slice(&[0x00, 0x15, 0x25, 0x0A].repeat(rt.alloc(), 20)?)?;
    let cards = read_cards(rt.alloc(), 0, records.as_slice(), None, None)?;
    assert_eq!(rt;
        (cards.layout, cards.code, cards.cards.len()),
        (Layout::Records, Code::Ibm1047, 3)
    );
    let first = cards.cards.first().ok_or("no card")?;
    assert_eq!(rt;
        first.text.as_slice(),
        card_text(b"++PTF(UA00001).").as_slice()
    );
    let mut lines = Vec::new(rt.alloc());
    lines.extend_from_slice(SET)?;
    lines.extend_from_slice(b"\x15")?;
    lines.extend_from_slice(SET)?;
    lines.extend_from_slice(b"\x0D\x25")?;
    let cards = read_cards(rt.alloc(), 0, lines.as_slice(), None, None)?;
    assert_eq!(rt; (cards.layout, cards.code), (Layout::Text, Code::Ibm1047));
    let lines: [&[u8]; 2] = [b"SET BDY(A$#@).", b"SET BDY(A$#@)."];
    check_texts(&rt, rt.alloc(), &cards, &lines)
}

#[test]
fn a_code_that_is_asked_for_is_taken(rt: HostRuntime) -> Result<(), Fail> {
    let brackets = b"\xAD\xBD\x5F\xBA\xBB\xB0\x15";
    let text = Some(Layout::Text);
    let open = read_cards(rt.alloc(), 0, brackets, text, Some(Code::Ibm1047))?;
    check_texts(&rt, rt.alloc(), &open, &[b"[]^\xDD\xA8\xAC"])?;
    let data_set = read_cards(rt.alloc(), 0, brackets, text, Some(Code::Ibm037))?;
    check_texts(&rt, rt.alloc(), &data_set, &[b"\xDD\xA8\xAC[]^"])
}

// So many of this byte, and the tail after them.
fn line_of(alloc: Global, byte: u8, len: usize, tail: &[u8]) -> Result<Vec<u8>, AllocError> {
    let mut line = Vec::new(alloc);
    for _ in 0..len {
        line.push(byte)?;
    }
    line.extend_from_slice(tail)?;
    Ok(line)
}

#[test]
fn a_line_longer_than_a_card_is_told(rt: HostRuntime) -> Result<(), Fail> {
    let whole = line_of(rt.alloc(), b'A', 80, b"\nB\n")?;
    assert_eq!(rt;
        read_cards(rt.alloc(), 0, whole.as_slice(), None, None)?
            .cards
            .len(),
        2
    );
    let long = line_of(rt.alloc(), b'A', 81, b"\nB\n")?;
    let cut = read_cards(rt.alloc(), 0, long.as_slice(), None, None)?;
    let note = cut.notes.first().ok_or("no note")?;
    assert_eq!(rt;
        (note.reason, note.first.card, note.cards),
        (CardNoteReason::LongLine, 1, 1)
    );
    let mut are_cut = Vec::new(rt.alloc());
    for card in cut.cards.as_slice() {
        are_cut.push(card.is_cut)?;
    }
    assert_eq!(rt; are_cut.as_slice(), [true, false].as_slice());
    let blanks = line_of(rt.alloc(), b' ', 90, b"\n A\n")?;
    let cards = read_cards(rt.alloc(), 0, blanks.as_slice(), None, None)?;
    let note = cards.notes.first().ok_or("no note")?;
    assert_eq!(rt;
        (note.reason, note.first.card, note.cards),
        (CardNoteReason::BlanksAfter80, 1, 1)
    );
    let short = line_of(rt.alloc(), b'A', 163, b"")?;
    let refused = read_cards(rt.alloc(), 0, short.as_slice(), Some(Layout::Records), None).err();
    assert_eq!(rt; refused, Some(CardError::ShortRecord { bytes: 3 }));
    Ok(())
}

#[test]
fn unprintable_characters_are_noted(rt: HostRuntime) -> Result<(), Fail> {
    let bytes = b"\xEF\xBB\xBF++PTF(UA00001).\n\tX\n\x00\t\n\xC3\x9C\n";
    let cards = read_cards(rt.alloc(), 0, bytes, None, None)?;
    let mut found = Vec::new(rt.alloc());
    for note in cards.notes.as_slice() {
        found.push((note.reason, note.first.card, note.cards))?;
    }
    let wanted = [
        (CardNoteReason::ByteOrderMark, 1, 1),
        (CardNoteReason::Tab, 2, 2),
        (CardNoteReason::NotPrintable, 3, 2),
    ];
    assert_eq!(rt; found.as_slice(), wanted.as_slice());
    let lines: [&[u8]; 4] = [b"++PTF(UA00001).", b"\tX", b"\x00\t", b"\xDC"];
    check_texts(&rt, rt.alloc(), &cards, &lines)
}

#[test]
fn columns_73_to_80_are_told_apart(rt: HostRuntime) -> Result<(), Fail> {
    let mut numbered = line_of(rt.alloc(), b' ', 72, b"00000100\n")?;
    numbered.extend_from_slice(line_of(rt.alloc(), b' ', 72, b"  UA1 10\n")?.as_slice())?;
    numbered.extend_from_slice(line_of(rt.alloc(), b'A', 72, b"\n")?.as_slice())?;
    let cards = read_cards(rt.alloc(), 0, numbered.as_slice(), None, None)?;
    let mut found = Vec::new(rt.alloc());
    for card in cards.cards.as_slice() {
        found.push((card.tail(), card.has_blank_columns()))?;
    }
    let wanted = [
        (Tail::Number, true),
        (Tail::Other, true),
        (Tail::Blank, false),
    ];
    assert_eq!(rt; found.as_slice(), wanted.as_slice());
    Ok(())
}

#[test]
fn a_letter_of_utf_8_has_one_column(rt: HostRuntime) -> Result<(), Fail> {
    let line =
        "/* \u{e4}\u{f6}\u{fc}\u{20ac}\u{e4}\u{f6}\u{fc}\u{e4}\u{f6}\u{fc} */ PRE(UI00001,UI00002,\
                                          UI00003,";
    let cards = read_cards(rt.alloc(), 0, line.as_bytes(), None, None)?;
    let card = cards.cards.first().ok_or("no card")?;
    assert_eq!(rt;
        &card.text[..13],
        b"/* \xE4\xF6\xFC\xBF\xE4\xF6\xFC\xE4\xF6\xFC".as_slice()
    );
    assert!(rt; card.columns().trim_ascii_end().ends_with(b"UI00003,"));
    assert!(rt; !card.is_cut);
    let latin = b"/* \xE4\xF6 */ LIST.\n";
    let cards = read_cards(rt.alloc(), 0, latin, None, None)?;
    check_texts(&rt, rt.alloc(), &cards, &[b"/* \xE4\xF6 */ LIST."])
}

#[test]
fn what_ends_a_file_is_passed_over(rt: HostRuntime) -> Result<(), Fail> {
    let padded = (CardNoteReason::Padding, 1);
    let ended = (CardNoteReason::Delimiter, 2);
    for (file, wanted) in [
        (b"LIST.\n\x1A".as_slice(), padded),
        (b"LIST.\n\x00\x00\x00".as_slice(), padded),
        (b"LIST.\n/*\n".as_slice(), ended),
        (b"LIST.\n$$\n\n".as_slice(), ended),
    ] {
        let cards = read_cards(rt.alloc(), 0, file, None, None)?;
        check_texts(&rt, rt.alloc(), &cards, &[b"LIST."])?;
        let note = cards.notes.first().ok_or("no note")?;
        assert_eq!(rt; (note.reason, note.first.card), wanted);
    }
    let mut records = records(rt.alloc(), &[b"LIST.", b"/* A */"])?;
    records.extend_from_slice(&[0; 100])?;
    let cards = read_cards(rt.alloc(), 0, records.as_slice(), None, None)?;
    assert_eq!(rt; cards.layout, Layout::Records);
    check_texts(&rt, rt.alloc(), &cards, &[b"LIST.", b"/* A */"])
}

#[test]
fn files_that_are_no_cards_are_told_apart(rt: HostRuntime) -> Result<(), Fail> {
    for (file, wanted) in [
        (b"\x1F\x8B\x08\x00".as_slice(), CardError::Compressed),
        (b"\xFF\xFE+\x00+\x00".as_slice(), CardError::Utf16),
        (b"\x00+\x00+\x00P".as_slice(), CardError::Utf16),
        (
            b"\x00\x09\x00\x00LIST.\x00\x09\x00\x00LIST.".as_slice(),
            CardError::RecordLengths,
        ),
        (
            b"++PTF(UA00001).\r++VER(Z038).\r".as_slice(),
            CardError::CarriageReturns,
        ),
    ] {
        assert_eq!(rt;
            read_cards(rt.alloc(), 0, file, None, None).err(),
            Some(wanted)
        );
    }
    Ok(())
}
