//! Files in memory.
ghost use Rattle.std.specs.Prelude.{◌≡◌, IfOk, length};
ghost use Rattle.intake_sysmod.specs.Users.{run_of};
ghost use Rattle.intake_carry.specs.Unsure.{AreUnsure};
ghost use Rattle.intake_service.specs.Carrying.{CarriesFiles};

use crate::carried::Carried;
use crate::stated::StatedFiles;
use intake_sysmod::Options;
use intake_words::{CardOptions, InputFiles, IntakeFault};
use std::alloc::Global;

/// A file as it was given: the name by which it is told, and its bytes.
#[derive(Clone, Copy, Debug)]
pub struct GivenFile<'a> {
    pub name: &'a str,
    pub bytes: &'a [u8],
}

/// Reads the statements of the files in order, and makes items that RECEIVE takes of them. `decide` is the flag
/// `--decide`: elements that the profile lacks get stand-ins, for CHECK only. Returns `NoStatement` if no file has a
/// statement, `NoCards` if the bytes of one cannot be read as cards, `Statements` if a statement cannot be read or
/// carried that belongs to no SYSMOD that could be left out, `Memory` if memory runs out.
pub fn carry(
    alloc: Global,
    inputs: &mut InputFiles,
    files: &[GivenFile<'_>],
    cards: CardOptions,
    decide: bool,
) -> Result<Carried, IntakeFault>
    ensures each { IfOk result (λ made. length made.files.items ≡ length files.now) }
    ensures carries { IfOk result (λ made. CarriesFiles decide made.files.items made.narrowed.items.items
        made.narrowed.hold_items.items) }
    ensures unsure { IfOk result (λ made. AreUnsure (run_of made.files.items) made.narrowed.items.items
        made.narrowed.unsure.items) }
{
    let stated = read_files(alloc, inputs, files, cards)?;
    let options = Options {
        decide,
        syslibs: Vec::new(alloc),
        members: Vec::new(alloc),
    };
    stated.carry(alloc, inputs, options)
}

// What the files state.
fn read_files(
    alloc: Global,
    inputs: &mut InputFiles,
    files: &[GivenFile<'_>],
    cards: CardOptions,
) -> Result<StatedFiles, IntakeFault>
    ensures { IfOk result (λ stated. length stated ≡ length files.now) }
{
    let mut stated = StatedFiles::new(alloc);
    for file in files {
        stated = stated.with_file(alloc, inputs, file.name, file.bytes, cards)?;
    }
    Ok(stated)
}
