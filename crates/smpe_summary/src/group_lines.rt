//! The lines of groups.
ghost use Rattle.std.specs.Prelude.{◌≡◌, ◌++◌, count_by, IfOk, OnOk};
ghost use Rattle.std.specs.Str.{bytes_eq};
ghost use Rattle.smpe_summary.specs.Groups.{function_of, functions_of};
ghost use Rattle.smpe_summary.specs.Text.{ids_line, group_line, function_line, others_line};
ghost use Rattle.smpe_summary.specs.Text.{function_lines};
ghost use Rattle.smpe_summary.specs.Text.{functions_text, early_groups, late_groups, group_lines};

use crate::first_line::ids_in;
use crate::pieces::{Piece, append_pieces};
use crate::values::{Group, Member};
use fields::Id;
use std::alloc::{AllocError, Global};

/// Appends how many ids there are and the first of them, if there are any.
pub(crate) fn append_ids_line<'a>(
    words: &'a [u8],
    ids: &'a [Id],
    text: &mut Vec<u8>,
) -> Result<(), AllocError>
    ensures { OnOk result (text.new.items ≡ text.old.items ++ ids_line words.now ids.now) }
{
    if ids.is_empty() {
        return Ok(());
    }
    let pieces = [
        Piece::Text(b"  "),
        Piece::Number(ids.len()),
        Piece::Text(b"  "),
        Piece::Text(words),
        Piece::Text(b": "),
        Piece::Ids(ids),
        Piece::Text(b"\n"),
    ];
    append_pieces(&pieces, text)
}

// Appends the line of a group, if it has members.
fn append_group(
    alloc: Global,
    members: &[Member],
    number: usize,
    words: &[u8],
    text: &mut Vec<u8>,
) -> Result<(), AllocError>
    ensures { OnOk result (text.new.items ≡ text.old.items ++ group_line members.now number words.now) }
{
    let ids = ids_in(alloc, members, number)?;
    append_ids_line(words, ids.as_slice(), text)
}

// Appends the function that a SYSMOD of the group lacks.
fn push_function(member: &Member, functions: &mut Vec<Id>) -> Result<(), AllocError>
    ensures { OnOk result (functions.new.items ≡ functions.old.items ++ function_of member.now.group) }
{
    if let Group::NoFunction(function) = member.group {
        functions.push(function)?;
    }
    Ok(())
}

/// The functions that these lack, one for each of them that lacks one.
pub(crate) fn functions_of(alloc: Global, members: &[Member]) -> Result<Vec<Id>, AllocError>
    ensures { IfOk result (λ functions. functions.items ≡ functions_of members.now) }
{
    let mut functions = Vec::new(alloc);
    for member in members {
        push_function(member, &mut functions)?;
    }
    Ok(functions)
}

// How many of the ids are this one.
fn count_of(ids: &[Id], id: Id) -> usize
    ensures { result ≡ count_by (bytes_eq id) ids.now }
{
    ids.iter().filter(|other| id == **other).count()
}

// Appends how many of all SYSMODs lack the function.
fn append_function<'a>(
    count: usize,
    all: usize,
    function: &'a Id,
    text: &mut Vec<u8>,
) -> Result<(), AllocError>
    ensures { OnOk result (text.new.items ≡ text.old.items ++ function_line count all function.now) }
{
    let bytes = function.as_bytes();
    let pieces = [
        Piece::Text(b"  "),
        Piece::Number(count),
        Piece::Text(b" of "),
        Piece::Number(all),
        Piece::Text(b": function "),
        Piece::Text(bytes),
        Piece::Text(b" is not installed and not in the files\n"),
    ];
    append_pieces(&pieces, text)
}

// Appends how many SYSMODs lack other functions, if any do.
fn append_others(count: usize, text: &mut Vec<u8>) -> Result<(), AllocError>
    ensures { OnOk result (text.new.items ≡ text.old.items ++ others_line count) }
{
    if count == 0 {
        return Ok(());
    }
    let count = Piece::Number(count);
    append_pieces(
        &[
            Piece::Text(b"  "),
            count,
            Piece::Text(b" more lack other functions\n"),
        ],
        text,
    )
}

// Appends how many SYSMODs lack the function, and how many lack others.
fn append_function_lines<'a>(
    all: usize,
    functions: &[Id],
    function: &'a Id,
    text: &mut Vec<u8>,
) -> Result<(), AllocError>
    ensures { OnOk result (text.new.items ≡ text.old.items ++ function_lines all functions.now function.now) }
{
    let count = count_of(functions, *function);
    append_function(count, all, function, text)?;
    append_others(functions.len().saturating_sub(count), text)
}

// Appends the first function that is lacking, with how many of all SYSMODs lack it, and how many lack others.
fn append_functions(all: usize, functions: &[Id], text: &mut Vec<u8>) -> Result<(), AllocError>
    ensures { OnOk result (text.new.items ≡ text.old.items ++ functions_text all functions.now) }
{
    let Some((function, _)) = functions.split_first() else {
        return Ok(());
    };
    append_function_lines(all, functions, function, text)
}

// Appends the groups of those that the command took up, and that neither go on nor would fail.
fn append_early_groups(
    alloc: Global,
    members: &[Member],
    text: &mut Vec<u8>,
) -> Result<(), AllocError>
    ensures { OnOk result (text.new.items ≡ text.old.items ++ early_groups members.now) }
{
    append_group(alloc, members, 4, b"not decided", text)?;
    let words = b"fail, but others that go on supersede them";
    append_group(alloc, members, 2, words, text)
}

// Appends the groups of those that the command did not take up.
fn append_late_groups(
    alloc: Global,
    members: &[Member],
    text: &mut Vec<u8>,
) -> Result<(), AllocError>
    ensures { OnOk result (text.new.items ≡ text.old.items ++ late_groups members.now) }
{
    append_group(alloc, members, 6, b"on already", text)?;
    append_group(alloc, members, 7, b"deleted", text)?;
    append_group(alloc, members, 8, b"not received", text)?;
    append_group(alloc, members, 9, b"without a ++VER for the SREL", text)
}

/// Appends the lines of the groups, except of those that go on or would fail.
pub(crate) fn append_group_lines(
    alloc: Global,
    members: &[Member],
    text: &mut Vec<u8>,
) -> Result<(), AllocError>
    ensures { OnOk result (text.new.items ≡ text.old.items ++ group_lines members.now) }
{
    append_early_groups(alloc, members, text)?;
    let functions = functions_of(alloc, members)?;
    append_functions(members.len(), functions.as_slice(), text)?;
    append_late_groups(alloc, members, text)
}
