//! What the words of the command line ask for. `clap` reads them.
ghost use Rattle.std.specs.Prelude.{◌≡◌, ◌≢◌, [], IfOk, IfErr, OnOk, map, option_map};
ghost use Rattle.std.specs.String.{string_bytes};
ghost use Rattle.clap.specs.Words.{found_of, rows_of};
ghost use Rattle.intake_words.specs.Asking.{IsAsked, IsOwn, IsRefused};
ghost use Rattle.intake_words.specs.Values.{HasOptions, SuitsCommands};

use crate::command_line::command_line;
use crate::option_values::{
    code_option, has_flag, has_text, layout_option, option_text, option_texts, required_text,
};
use clap::ArgMatches;
use clap::error::ErrorKind;
use fields::Name;
use intake_cards::{Code, Layout};
use intake_sysmod::Syslib;
use std::alloc::{AllocError, AllocFailed, Global};

/// What is told of a value of `--syslib` that is not one.
const BAD_SYSLIB: &str = "--syslib takes DISTLIB=SYSLIB";

/// What the program is asked to do. The texts are the names of files and folders.
#[derive(Drop)]
pub struct IntakeOptions {
    /// The folder of what is written.
    pub out: String,
    pub files: Vec<String>,
    /// The command file, in place of the files.
    pub cntl: Option<String>,
    /// Files of SYSMODs that are known, for the command file: lists, and the PTFIN that it receives.
    pub known: Vec<String>,
    /// The folder of the files that RELFILE names.
    pub relfile: Option<String>,
    /// For each DISTLIB, the SYSLIB that is given.
    pub syslibs: Vec<Syslib>,
    pub decide: bool,
    /// The summary is for programs.
    pub json: bool,
    pub cards: CardOptions,
}

/// How files are read as cards. What is not given here is guessed from the bytes of each file.
#[derive(Clone, Copy, Debug)]
pub struct CardOptions {
    pub layout: Option<Layout>,
    pub code: Option<Code>,
}

/// Why the words of the command line cannot be carried out.
#[derive(Debug, Drop)]
pub enum WordsFault {
    Memory,
    /// What `clap` says, help and version too.
    Clap(clap::Error),
    /// A word that `clap` takes and that cannot be what it is for, as the text says.
    BadOperand(&'static str),
}

impl From<AllocError> for WordsFault {
    ghost use Rattle.std.specs.Prelude.{◌≡◌};
    ghost use Rattle.intake_words.specs.declared.options.WordsFault.TheVariants.{Memory};

    ghost from_gives = { λ _ e. e ≡ Memory };

    fn from(_error: AllocError) -> WordsFault {
        WordsFault::Memory
    }
}

impl<T: Drop> From<AllocFailed<T>> for WordsFault {
    ghost use Rattle.std.specs.Prelude.{◌≡◌};
    ghost use Rattle.intake_words.specs.declared.options.WordsFault.TheVariants.{Memory};

    ghost from_gives = { λ _ e. e ≡ Memory };

    fn from(_error: AllocFailed<T>) -> WordsFault {
        WordsFault::Memory
    }
}

impl From<clap::Error> for WordsFault {
    ghost use Rattle.intake_words.specs.Asking.{IsOfClap};

    ghost from_gives = { IsOfClap };

    fn from(error: clap::Error) -> WordsFault {
        match error.kind() {
            ErrorKind::OutOfMemory => WordsFault::Memory,
            _ => WordsFault::Clap(error),
        }
    }
}

/// The options of the words, the first of which is the program's name. Returns `Clap` for help, version and words that
/// `clap` refuses, `BadOperand` if a word is not UTF-8 or a value is not one of its option, and `Memory` if memory runs
/// out.
pub fn read_options(alloc: Global, words: &[Vec<u8>]) -> Result<IntakeOptions, WordsFault>
    ensures ok { IfOk result (IsAsked (map (λ word. word.items) words.now)) }
    ensures err { IfErr result (IsRefused (map (λ word. word.items) words.now)) }
{
    let texts = word_texts(alloc, words)?;
    let views = text_views(alloc, texts.as_slice())?;
    let matches = command_line(alloc)?.try_get_matches_from(views.as_slice())?;
    options_of_matches(alloc, &matches)
}

// The words as texts. Returns `BadOperand` if one is not UTF-8.
fn word_texts(alloc: Global, words: &[Vec<u8>]) -> Result<Vec<String>, WordsFault>
    ensures ok { IfOk result (λ texts. map string_bytes texts.items ≡ map (λ word. word.items) words.now) }
    ensures err { IfErr result IsOwn }
{
    let mut texts: Vec<String> = Vec::new(alloc);
    for word in words {
        let text = word_text(alloc, word.as_slice())?;
        texts.push(text)?;
    }
    Ok(texts)
}

// The word as a text. Returns `BadOperand` if it is not UTF-8.
fn word_text(alloc: Global, word: &[u8]) -> Result<String, WordsFault>
    ensures ok { IfOk result (λ text. string_bytes text ≡ word.now) }
    ensures err { IfErr result IsOwn }
{
    match str::from_utf8(word) {
        Ok(text) => Ok(String::from_str(alloc, text)?),
        Err(_) => Err(WordsFault::BadOperand("no UTF-8")),
    }
}

/// The texts as string slices.
pub fn text_views(alloc: Global, texts: &[String]) -> Result<Vec<&str>, AllocError>
    ensures { IfOk result (λ views. map (λ view. view.now) views.items ≡ map string_bytes texts.now) }
{
    let mut views = Vec::new(alloc);
    for text in texts {
        views.push(text.as_str())?;
    }
    Ok(views)
}

// The options that `clap` has matched. Returns `BadOperand` if a value is not one of its option, and `Memory` if memory
// runs out.
fn options_of_matches(alloc: Global, found: &ArgMatches<'_>) -> Result<IntakeOptions, WordsFault>
    ensures ok { IfOk result (HasOptions (rows_of (found_of found.now))) }
    ensures err { IfErr result IsOwn }
{
    let out = required_text(alloc, found, "out")?;
    let files = option_texts(alloc, found, "file")?;
    let cntl = option_text(alloc, found, "cntl")?;
    check_files(&cntl, &files)?;
    let known = option_texts(alloc, found, "known")?;
    let relfile = option_text(alloc, found, "relfile")?;
    let syslibs = syslib_options(alloc, found)?;
    let layout = layout_option(found)?;
    let code = code_option(found)?;
    Ok(IntakeOptions {
        out,
        files,
        cntl,
        known,
        relfile,
        syslibs,
        decide: has_flag(found, "decide"),
        json: has_text(found, "summary", "json"),
        cards: CardOptions { layout, code },
    })
}

// Checks that there are files, or a command file, and not both. Returns `BadOperand` otherwise.
fn check_files(cntl: &Option<String>, files: &[String]) -> Result<(), WordsFault>
    ensures ok { OnOk result (SuitsCommands (option_map string_bytes cntl.now) (map string_bytes files.now)) }
    ensures err { IfErr result IsOwn }
{
    match cntl {
        Some(_) => check_no_file(files),
        None => check_some_file(files),
    }
}

// Checks that there is no file beside a command file. Returns `BadOperand` otherwise.
fn check_no_file(files: &[String]) -> Result<(), WordsFault>
    ensures ok { OnOk result (map string_bytes files.now ≡ []) }
    ensures err { IfErr result IsOwn }
{
    if files.is_empty() {
        Ok(())
    } else {
        Err(WordsFault::BadOperand("--cntl takes no other FILE"))
    }
}

// Checks that there is a file. Returns `BadOperand` otherwise.
fn check_some_file(files: &[String]) -> Result<(), WordsFault>
    ensures ok { OnOk result (map string_bytes files.now ≢ []) }
    ensures err { IfErr result IsOwn }
{
    if files.is_empty() {
        Err(WordsFault::BadOperand("no FILE is given"))
    } else {
        Ok(())
    }
}

// The SYSLIBs of all --syslib, each with its DISTLIB. Returns `BadOperand` if a value is not DISTLIB=SYSLIB, `Memory`
// if memory runs out.
fn syslib_options(alloc: Global, found: &ArgMatches<'_>) -> Result<Vec<Syslib>, WordsFault>
    ensures { IfErr result IsOwn }
{
    let mut syslibs = Vec::new(alloc);
    for value in &option_texts(alloc, found, "syslib")? {
        let Some((distlib, syslib)) = value.as_str().split_once('=') else {
            return Err(WordsFault::BadOperand(BAD_SYSLIB));
        };
        syslibs.push(Syslib {
            distlib: read_library_name(alloc, distlib)?,
            syslib: read_library_name(alloc, syslib)?,
        })?;
    }
    Ok(syslibs)
}

// The name of a library, in upper case. Returns `BadOperand` if it has not the form of a name, `Memory` if memory runs
// out.
fn read_library_name(alloc: Global, name: &str) -> Result<Name, WordsFault>
    ensures { IfErr result IsOwn }
{
    let upper = name.as_bytes().to_ascii_uppercase(alloc)?;
    Name::read(upper.as_slice()).ok_or(WordsFault::BadOperand(BAD_SYSLIB))
}
