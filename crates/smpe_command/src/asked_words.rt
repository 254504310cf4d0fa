//! What the words of the command line ask for.
ghost use Rattle.std.specs.Prelude.{◌≡◌, ◌↔◌, IsTrue, All, map, IfOk, IfErr};
ghost use Rattle.std.specs.Str.{IsUtf8};
ghost use Rattle.std.specs.String.{string_bytes};
ghost use Rattle.smpe_command.specs.Asking.{IsAsked, IsUnasked, shown};

use smpe::{ArgFault, Invocation, invocation};
use std::alloc::{AllocError, Global};

/// Reads what the words ask for. Returns `Clap` if `clap` refuses the words, `BadOperand` if it takes them and one has
/// a bad form or is not UTF-8, and `Memory` if memory runs out.
pub(crate) fn read_words(alloc: Global, words: &[Vec<u8>]) -> Result<Invocation, ArgFault>
    ensures ok { IfOk result (IsAsked (map (λ word. word.items) words.now)) }
    ensures err { IfErr result (IsUnasked (map (λ word. word.items) words.now)) }
{
    let texts = lossy_texts(alloc, words)?;
    let views = borrow_texts(alloc, texts.as_slice())?;
    let request = invocation(alloc, views.as_slice())?;
    if are_utf8(words) {
        Ok(request)
    } else {
        drop(request);
        Err(ArgFault::BadOperand)
    }
}

// The words as texts, with U+FFFD in place of each part that is not UTF-8, so that `clap` can read all words.
fn lossy_texts(alloc: Global, words: &[Vec<u8>]) -> Result<Vec<String>, AllocError>
    ensures { IfOk result (λ texts. map string_bytes texts.items ≡ shown (map (λ word. word.items) words.now)) }
{
    let mut texts = Vec::new(alloc);
    for word in words {
        texts.push(String::from_utf8_lossy(alloc, word.as_slice())?)?;
    }
    Ok(texts)
}

// The texts as `clap` takes them.
fn borrow_texts<'a>(alloc: Global, texts: &'a [String]) -> Result<Vec<&'a str>, AllocError>
    ensures { IfOk result (λ views. map (λ view. view.now) views.items ≡ map string_bytes texts.entry.now) }
{
    let mut views: Vec<&'a str> = Vec::new(alloc);
    for text in texts {
        views.push(text.as_str())?;
    }
    Ok(views)
}

fn are_utf8(words: &[Vec<u8>]) -> bool
    ensures { IsTrue result ↔ All (λ word. IsUtf8 word.items) words.now }
{
    for word in words {
        if !is_utf8(word.as_slice()) {
            return false;
        }
    }
    true
}

fn is_utf8(word: &[u8]) -> bool
    ensures { IsTrue result ↔ IsUtf8 word.now }
{
    str::from_utf8(word).is_ok()
}
