//! Texts as pieces.
ghost use Rattle.std.specs.Prelude.{◌≡◌, ◌++◌, codes, decimal, take, OnOk};
ghost use Rattle.std.specs.List.{flat_map};
ghost use Rattle.smpe_summary.specs.Text.{ids_text, more_text, some_ids, counted, piece_text, pieces_text};
ghost use Rattle.smpe_summary.specs.Text.{more_line};

use fields::Id;
use itoa::Buffer;
use std::alloc::AllocError;

/// How many ids of a list are told.
const MOST_IDS: usize = 3;

/// A piece of a text.
#[derive(Clone, Copy)]
pub(crate) enum Piece<'a> {
    Text(&'a [u8]),
    Number(usize),
    /// With a noun, whose plural ends in s.
    Counted(usize, &'a [u8]),
    /// The first of them, and how many more there are.
    Ids(&'a [Id]),
}

/// The first of these items, at most so many.
pub(crate) fn first_of<T>(items: &[T], most: usize) -> &[T]
    ensures { result.now ≡ take most items.now }
{
    if items.len() <= most {
        return items;
    }
    &items[..most]
}

// Appends the number.
fn append_number(number: usize, text: &mut Vec<u8>) -> Result<(), AllocError>
    ensures { OnOk result (text.new.items ≡ text.old.items ++ decimal number) }
{
    let mut buffer = Buffer::new();
    text.extend_from_slice(buffer.format(number).as_bytes())
}

// Appends the number and the noun.
fn append_counted<'a>(number: usize, noun: &'a [u8], text: &mut Vec<u8>) -> Result<(), AllocError>
    ensures { OnOk result (text.new.items ≡ text.old.items ++ counted number noun.now) }
{
    append_number(number, text)?;
    text.extend_from_slice(b" ")?;
    text.extend_from_slice(noun)?;
    text.extend_from_slice(if number == 1 {
        b"".as_slice()
    } else {
        b"s".as_slice()
    })
}

// Appends a comma and the id.
fn append_next_id(id: Id, text: &mut Vec<u8>) -> Result<(), AllocError>
    ensures { OnOk result (text.new.items ≡ text.old.items ++ codes ", " ++ id) }
{
    text.extend_from_slice(b", ")?;
    text.extend_from_slice(id.as_bytes())
}

// Appends the ids, with a comma between them.
fn append_ids(ids: &[Id], text: &mut Vec<u8>) -> Result<(), AllocError>
    ensures { OnOk result (text.new.items ≡ text.old.items ++ ids_text ids.now) }
{
    let Some((first, rest)) = ids.split_first() else {
        return Ok(());
    };
    text.extend_from_slice(first.as_bytes())?;
    for id in rest {
        append_next_id(*id, text)?;
    }
    Ok(())
}

// Appends how many more there are than are told.
fn append_more(most: usize, number: usize, text: &mut Vec<u8>) -> Result<(), AllocError>
    ensures { OnOk result (text.new.items ≡ text.old.items ++ more_text most number) }
{
    if number <= most {
        return Ok(());
    }
    text.extend_from_slice(b" and ")?;
    append_number(number - most, text)?;
    text.extend_from_slice(b" more")
}

// Appends the first of the ids, and how many more there are.
fn append_some_ids(ids: &[Id], text: &mut Vec<u8>) -> Result<(), AllocError>
    ensures { OnOk result (text.new.items ≡ text.old.items ++ some_ids ids.now) }
{
    append_ids(first_of(ids, MOST_IDS), text)?;
    append_more(MOST_IDS, ids.len(), text)
}

// Appends the piece.
fn append_piece<'a>(piece: &'a Piece<'a>, text: &mut Vec<u8>) -> Result<(), AllocError>
    ensures { OnOk result (text.new.items ≡ text.old.items ++ piece_text piece.now) }
{
    match piece {
        Piece::Text(part) => text.extend_from_slice(part),
        Piece::Number(number) => append_number(*number, text),
        Piece::Counted(number, noun) => append_counted(*number, noun, text),
        Piece::Ids(ids) => append_some_ids(ids, text),
    }
}

/// Appends the pieces.
pub(crate) fn append_pieces(pieces: &[Piece<'_>], text: &mut Vec<u8>) -> Result<(), AllocError>
    ensures { OnOk result (text.new.items ≡ text.old.items ++ pieces_text pieces.now) }
{
    for piece in pieces {
        append_piece(piece, text)?;
    }
    Ok(())
}

/// Appends how many more of these there are than are told.
pub(crate) fn append_more_line<'a>(
    most: usize,
    number: usize,
    what: &'a [u8],
    text: &mut Vec<u8>,
) -> Result<(), AllocError>
    ensures { OnOk result (text.new.items ≡ text.old.items ++ more_line most number what.now) }
{
    if number <= most {
        return Ok(());
    }
    let more = Piece::Number(number - most);
    let pieces = [
        Piece::Text(b"     and "),
        more,
        Piece::Text(b" more "),
        Piece::Text(what),
        Piece::Text(b"\n"),
    ];
    append_pieces(&pieces, text)
}
