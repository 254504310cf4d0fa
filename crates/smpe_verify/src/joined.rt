//! Words joined by blanks.
ghost use Rattle.std.specs.Prelude.{◌≡◌, ◌++◌, map, OnOk};
ghost use Rattle.std.specs.List.{join_with_byte};
ghost use Rattle.machine.specs.Report.{words_line};

use std::alloc::AllocError;

/// Appends the words to the text, separated by single blanks.
pub(crate) fn append_joined(words: &[&[u8]], text: &mut Vec<u8>) -> Result<(), AllocError>
    ensures { OnOk result
        (text.new.items ≡ text.old.items ++ join_with_byte 32 (map (λ word. word.now) words.now)) }
{
    let Some((first, rest)) = words.split_first() else {
        return Ok(());
    };
    text.extend_from_slice(first)?;
    for word in rest {
        text.push(b' ')?;
        text.extend_from_slice(word)?;
    }
    Ok(())
}

/// Appends the words to the text, separated by single blanks, and ends the line.
pub(crate) fn append_line(words: &[&[u8]], text: &mut Vec<u8>) -> Result<(), AllocError>
    ensures { OnOk result
        (text.new.items ≡ text.old.items ++ words_line (map (λ word. word.now) words.now)) }
{
    append_joined(words, text)?;
    text.extend_from_slice(b"\n")
}
