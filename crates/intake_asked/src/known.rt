//! The SYSMODs that are known besides those that the commands name: those of lists with their types and source ids, and
//! those of the PTFIN that the job receives. GROUPEXTEND and a SOURCEID with an asterisk choose among them.
ghost use Rattle.std.specs.Prelude.{◌≡◌, ◌∷◌, true, IfOk, IfSome, IfNone, All, map};
ghost use Rattle.std.specs.List.{list_all, list_any};
ghost use Rattle.terms.specs.Forms.{IsId, IsSource};
ghost use Rattle.intake_asked.specs.Known.{is_separator, is_rule_byte, lines_of, words_of, HasWords};
ghost use Rattle.intake_asked.specs.Known.{FirstBecomes, AreStated, StatedBecomes};
ghost use Rattle.intake_asked.specs.Known.{HasListed, HasMore, IsGathered, sysmods_of};
ghost use Rattle.intake_asked.specs.declared.known.KnownSysmod.{KnownSysmod};

use fields::spelling::read_kind;
use fields::{Id, Source};
use intake_read::{WideFile, WideSysmod};
use std::alloc::{AllocError, Global};
use terms::Kind;

/// A SYSMOD that is known, with its type and its source ids.
#[derive(Debug, Drop)]
pub struct KnownSysmod {
    pub id: Id,
    pub kind: Kind,
    pub sources: Vec<Source>,
}

/// The SYSMODs that a file names.
#[derive(Debug, Drop)]
pub struct KnownFile {
    pub sysmods: Vec<KnownSysmod>,
    /// Whether it is a PTFIN, and not a list.
    pub is_ptfin: bool,
}

/// The SYSMODs that are known.
#[derive(Debug, Drop)]
pub struct KnownSysmods {
    /// Those of all files, or `None` if no file is given.
    pub list: Option<Vec<KnownSysmod>>,
    /// Whether the PTFIN is among the files, which has the SYSMODs that the job receives.
    pub has_ptfin: bool,
}

/// What `read_known` returns: the SYSMODs of a list, or its first line that is not in form. A line has an id, a type
/// and source ids, with blanks, commas, bars or quotes between. A line of titles at the beginning is skipped, and so
/// are blank lines and lines of dashes.
#[derive(Debug, Drop)]
pub enum KnownList {
    Sysmods(Vec<KnownSysmod>),
    /// The number of the line. The first line has the number 1.
    BadLine(usize),
}

/// Reads a list of known SYSMODs.
pub fn read_known(alloc: Global, bytes: &[u8]) -> Result<KnownList, AllocError>
    ensures { IfOk result (HasListed (lines_of bytes.now)) }
{
    let lines = lines_of(alloc, bytes)?;
    let Some((first, rest)) = lines.as_slice().split_first() else {
        return Ok(KnownList::Sysmods(Vec::new(alloc)));
    };
    let sysmods = read_first_line(alloc, *first)?;
    read_lines(alloc, sysmods, rest)
}

// The lines of the bytes.
fn lines_of(alloc: Global, bytes: &[u8]) -> Result<Vec<&[u8]>, AllocError>
    ensures { IfOk result (λ lines. map (λ line. line.now) lines.items ≡ lines_of bytes.now) }
{
    bytes.split(|byte| *byte == b'\n').collect(alloc)
}

// The words of the line.
fn words_of(alloc: Global, line: &[u8]) -> Result<Vec<&[u8]>, AllocError>
    ensures { IfOk result (λ words. map (λ word. word.now) words.items ≡ words_of line.now) }
{
    line.split(|byte| is_separator(*byte))
        .filter(|word| !word.is_empty())
        .collect(alloc)
}

// Whether the character separates the words of a line.
fn is_separator(byte: u8) -> bool
    ensures { result ≡ is_separator byte }
{
    byte == b' ' || byte == b',' || byte == b'|' || byte == b'"' || byte == b'\t' || byte == b'\r'
}

// Whether the character stands in a rule, or separates words.
fn is_rule_byte(byte: u8) -> bool
    ensures { result ≡ is_rule_byte byte }
{
    is_separator(byte) || byte == b'-' || byte == b'+'
}

// Whether the line is blank, or a rule of dashes and plus signs, as databases print it under titles.
fn is_rule(line: &[u8]) -> bool
    ensures { result ≡ list_all is_rule_byte line.now }
{
    line.iter().all(|byte| is_rule_byte(*byte))
}

// The SYSMOD of the first line, or none if it is blank or has titles.
fn read_first_line(alloc: Global, line: &[u8]) -> Result<Vec<KnownSysmod>, AllocError>
    ensures { IfOk result (λ found. FirstBecomes line.now found.items) }
{
    let mut sysmods = Vec::new(alloc);
    if is_rule(line) {
        return Ok(sysmods);
    }
    let Some(sysmod) = read_known_sysmod(alloc, line)? else {
        return Ok(sysmods);
    };
    sysmods.push(sysmod)?;
    Ok(sysmods)
}

// Adds the SYSMODs of the lines after the first one, or returns the number of the first line that is not in form.
fn read_lines(
    alloc: Global,
    mut sysmods: Vec<KnownSysmod>,
    lines: &[&[u8]],
) -> Result<KnownList, AllocError>
    ensures { IfOk result (HasMore sysmods.items (map (λ line. line.now) lines.now)) }
{
    let mut number = 1usize;
    for line in lines {
        number = number.saturating_add(1);
        if is_rule(*line) {
            continue;
        }
        let Some(sysmod) = read_known_sysmod(alloc, *line)? else {
            return Ok(KnownList::BadLine(number));
        };
        sysmods.push(sysmod)?;
    }
    Ok(KnownList::Sysmods(sysmods))
}

// The SYSMOD of a line, or `None` if the line is not in form.
fn read_known_sysmod(alloc: Global, line: &[u8]) -> Result<Option<KnownSysmod>, AllocError>
    ensures some { IfOk result (λ found. IfSome found (HasWords (words_of line.now))) }
    ensures none { IfOk result (λ found. IfNone found ((k : KnownSysmod) → HasWords (words_of line.now) k → ⊥)) }
{
    let words = words_of(alloc, line)?;
    sysmod_of_words(alloc, &words)
}

// The SYSMOD of these words, or `None` if they are not an id, a type and source ids.
fn sysmod_of_words(alloc: Global, words: &[&[u8]]) -> Result<Option<KnownSysmod>, AllocError>
    ensures some { IfOk result (λ found. IfSome found (HasWords (map (λ word. word.now) words.now))) }
    ensures none { IfOk result (λ found. IfNone found
        ((k : KnownSysmod) → HasWords (map (λ word. word.now) words.now) k → ⊥)) }
{
    let Some((first, others)) = words.split_first() else {
        return Ok(None);
    };
    let Some(id) = Id::read(*first) else {
        return Ok(None);
    };
    sysmod_of_id(alloc, id, others)
}

// The SYSMOD of this id, or `None` if the words after it are not a type and source ids.
fn sysmod_of_id(alloc: Global, id: Id, words: &[&[u8]]) -> Result<Option<KnownSysmod>, AllocError>
    requires { IsId id }
    ensures some { IfOk result (λ found. IfSome found (HasWords (id ∷ map (λ word. word.now) words.now))) }
    ensures none { IfOk result (λ found. IfNone found
        ((k : KnownSysmod) → HasWords (id ∷ map (λ word. word.now) words.now) k → ⊥)) }
{
    let Some((word, listed)) = words.split_first() else {
        return Ok(None);
    };
    let Some(kind) = read_kind(*word) else {
        return Ok(None);
    };
    let Some(sources) = read_sources(alloc, listed)? else {
        return Ok(None);
    };
    Ok(Some(KnownSysmod { id, kind, sources }))
}

// The source ids of these words, or `None` if one of them is none.
fn read_sources(alloc: Global, words: &[&[u8]]) -> Result<Option<Vec<Source>>, AllocError>
    ensures some { IfOk result (λ found. IfSome found (λ sources.
        (sources.items ≡ map (λ word. word.now) words.now) × All IsSource sources.items)) }
    ensures none { IfOk result (λ found. IfNone found (All IsSource (map (λ word. word.now) words.now) → ⊥)) }
{
    let mut sources = Vec::new(alloc);
    for word in words {
        let Some(source) = Source::read(*word) else {
            return Ok(None);
        };
        sources.push(source)?;
    }
    Ok(Some(sources))
}

/// The SYSMODs that these statements of a PTFIN state, with the source ids that its `++ASSIGN`s give them. Those whose
/// id has not the form of one are left out, as RECEIVE takes none of them.
pub fn known_of_statements(alloc: Global, file: &WideFile) -> Result<KnownFile, AllocError>
    ensures stated { IfOk result (λ known. AreStated file.now.sysmods.items known.sysmods.items) }
    ensures ptfin { IfOk result (λ known. known.is_ptfin ≡ true) }
{
    let mut sysmods = Vec::new(alloc);
    for stated in file.sysmods.iter() {
        let mut known = known_of_sysmod(alloc, file, stated)?;
        sysmods.append(&mut known)?;
    }
    Ok(KnownFile {
        sysmods,
        is_ptfin: true,
    })
}

// The SYSMOD that a statement states, or none if its id has not the form of one.
fn known_of_sysmod(
    alloc: Global,
    file: &WideFile,
    stated: &WideSysmod,
) -> Result<Vec<KnownSysmod>, AllocError>
    ensures { IfOk result (λ known. StatedBecomes stated.now known.items) }
{
    let mut known = Vec::new(alloc);
    let Some(id) = Id::read(stated.id.as_slice()) else {
        return Ok(known);
    };
    let sources = assigned_sources(alloc, file, stated.id.as_slice())?;
    known.push(KnownSysmod {
        id,
        kind: stated.kind,
        sources,
    })?;
    Ok(known)
}

// The source ids that the `++ASSIGN`s of the file give the SYSMOD.
fn assigned_sources(alloc: Global, file: &WideFile, id: &[u8]) -> Result<Vec<Source>, AllocError> {
    let mut sources = Vec::new(alloc);
    for assign in file.assigns.iter() {
        let Some(source) = &assign.source else {
            continue;
        };
        if !assign.to.iter().any(|member| member.as_slice() == id) {
            continue;
        }
        if let Some(source) = Source::read(source.as_slice()) {
            sources.push(source)?;
        }
    }
    Ok(sources)
}

/// The SYSMODs of all files.
pub fn gather_known(alloc: Global, files: Vec<KnownFile>) -> Result<KnownSysmods, AllocError>
    ensures { IfOk result (IsGathered files.items) }
{
    let has_ptfin = has_ptfin(files.as_slice());
    if files.is_empty() {
        return Ok(KnownSysmods {
            list: None,
            has_ptfin,
        });
    }
    let list = sysmods_of(alloc, files)?;
    Ok(KnownSysmods {
        list: Some(list),
        has_ptfin,
    })
}

// Whether one of the files is a PTFIN.
fn has_ptfin(files: &[KnownFile]) -> bool
    ensures { result ≡ list_any (λ file. file.is_ptfin) files.now }
{
    files.iter().any(|file| file.is_ptfin)
}

// The SYSMODs of all files, in order.
fn sysmods_of(alloc: Global, files: Vec<KnownFile>) -> Result<Vec<KnownSysmod>, AllocError>
    ensures { IfOk result (λ all. all.items ≡ sysmods_of files.items) }
{
    let mut all = Vec::new(alloc);
    for file in files {
        let mut sysmods = file.sysmods;
        all.append(&mut sysmods)?;
    }
    Ok(all)
}
