//! Statements, commands and their words, as text.

use crate::row_text::RowText;
use rec80::{Commands, Group, Groups, Piece, Record, Records, StmtError, Text, Words, statement};

/// How many members, words, statements, commands or pieces of one text are written at most.
const MOST_ITEMS: usize = 9;

// Appends each member with its own list in parentheses and a semicolon, and a `?` if the rest is no list of members.
fn print_members(out: &mut RowText, list: &Text<'_>) {
    let mut members = list.members();
    for _ in 0..MOST_ITEMS {
        match members.next_member() {
            Ok(Some(member)) => {
                out.print(member.word);
                if let Some(inner) = member.list {
                    out.print(b"(");
                    out.print(inner.line());
                    out.print(b")");
                }
                out.print(b";");
            }
            Ok(None) => return,
            Err(_) => return out.print(b"?"),
        }
    }
}

// Appends each word with its members in parentheses and a blank, and a `?` if something else comes instead of a word.
fn print_operands(out: &mut RowText, mut words: Words<'_>) {
    for _ in 0..MOST_ITEMS {
        match words.next_word() {
            Ok(Some(word)) => {
                out.print(word.word);
                if let Some(list) = word.list {
                    out.print(b"(");
                    print_members(out, &list);
                    out.print(b")");
                }
                out.print(b" ");
            }
            Ok(None) => return,
            Err(_) => return out.print(b"?"),
        }
    }
}

fn print_fault(out: &mut RowText, error: StmtError) {
    out.print(match error {
        StmtError::NoPeriod => b"St1",
        StmtError::OpenComment => b"St2",
        StmtError::BadParens => b"St3",
        StmtError::TextAfterPeriod => b"St4",
    });
}

/// The words of the statement in these records, or its fault.
pub(crate) fn statement_text(found: Records<'_>) -> RowText {
    let mut out = RowText::new();
    let group = Group {
        number: 1,
        records: found.all,
    };
    match statement(&group) {
        Ok(words) => print_operands(&mut out, words),
        Err(error) => print_fault(&mut out, error),
    }
    out
}

// Appends the number of records of each statement.
fn print_group_sizes(out: &mut RowText, mut groups: Groups<'_>) {
    for _ in 0..MOST_ITEMS {
        if let Some(group) = groups.next_group() {
            out.print_number(group.records.len());
        }
    }
}

/// The number of records of each of a file's statements.
pub(crate) fn group_sizes(found: Records<'_>) -> RowText {
    let mut out = RowText::new();
    match found.groups() {
        Ok(groups) => print_group_sizes(&mut out, groups),
        Err(_) => out.print(b"outside"),
    }
    out
}

// Appends the words of each command after the number of its record, up to the first fault.
fn print_commands(out: &mut RowText, mut commands: Commands<'_>) {
    for _ in 0..MOST_ITEMS {
        match commands.next_command() {
            Ok(Some(command)) => {
                out.print_number(command.number);
                out.print(b" ");
                print_operands(out, command.words);
            }
            Ok(None) => return,
            Err(error) => {
                out.print_number(error.number);
                out.print(b" ");
                return print_fault(out, error.why);
            }
        }
    }
}

/// The words of each command after the number of its record, or the first fault.
pub(crate) fn words_of_commands(found: Records<'_>) -> RowText {
    let mut out = RowText::new();
    print_commands(&mut out, found.commands());
    out
}

// Appends a letter for each piece, and the characters that belong to no word.
fn print_pieces(out: &mut RowText, mut words: Words<'_>) {
    for _ in 0..MOST_ITEMS {
        match words.next_piece() {
            Some(Piece::Word(_)) => out.print(b"W"),
            Some(Piece::List(_)) => out.print(b"L"),
            Some(Piece::Stray(byte)) => out.print(&[byte]),
            None => {}
        }
    }
}

/// The pieces of the first command.
pub(crate) fn pieces_of(found: Records<'_>) -> RowText {
    let mut out = RowText::new();
    if let Ok(Some(command)) = found.commands().next_command() {
        print_pieces(&mut out, command.words);
    }
    out
}

// Appends the first two lines of the list of the statement's first word, and the first byte of the second line. Stops
// and returns `None` if one is missing.
fn print_lines(out: &mut RowText, records: &[Record]) -> Option<()> {
    let mut words = statement(&Group { number: 1, records }).ok()?;
    let text = words.next_word().ok()??.list?;
    out.print(text.line().trim_ascii());
    let next = text.next_line()?;
    out.print(b"/");
    out.print(next.line());
    let (byte, _) = next.next_byte()?;
    out.print(&[b'/', byte]);
    Some(())
}

/// The first two lines of the list of the statement's first word, as far as there are any.
pub(crate) fn lines_of_list(found: Records<'_>) -> RowText {
    let mut out = RowText::new();
    let _ = print_lines(&mut out, found.all);
    out
}
