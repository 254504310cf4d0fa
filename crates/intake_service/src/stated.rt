//! What files state, as they are read one after the other.
ghost use Rattle.std.specs.Prelude.{◌≡◌, ◌∷◌, ◌++◌, [], IfOk};
ghost use Rattle.intake_read.specs.declared.items.WideFile.{WideFile};
ghost use Rattle.intake_holds.specs.Outside.{AddsHoldsAt};
ghost use Rattle.intake_sysmod.specs.Users.{run_of};
ghost use Rattle.intake_carry.specs.Unsure.{AreUnsure};
ghost use Rattle.intake_service.specs.Carrying.{CarriesFiles};

use crate::carried::Carried;
use intake_carry::{CarryError, OutsideHolds, narrow, read_statements};
use intake_read::WideFile;
use intake_sysmod::Options;
use intake_words::{CardOptions, InputFiles, IntakeFault, refusal_fault};
use std::alloc::Global;
use std::marker::Model;

/// What the files state that were read so far, in their order. A contract sees the list of their statements. The holds
/// outside SYSMODs are carried as they are read, so that their statements need not be kept.
#[derive(Drop)]
pub struct StatedFiles {
    files: Vec<WideFile>,
    held: OutsideHolds,
}

impl Model for StatedFiles {
    ghost use Rattle.std.specs.Prelude.{List};
    ghost use Rattle.intake_read.specs.declared.items.WideFile.{WideFile};
    ghost use Rattle.intake_service.specs.Carrying.{HasHoldsOf};

    ghost Value = { List WideFile };

    ghost view = { λ stated. stated.files.items };

    ghost invariant = { λ stated. HasHoldsOf stated.files.items stated.held };
}

impl StatedFiles {
    /// No files yet.
    pub fn new(alloc: Global) -> StatedFiles
        ensures { result ≡ [] }
    {
        StatedFiles {
            files: Vec::new(alloc),
            held: OutsideHolds::new(alloc),
        }
    }

    /// What each of the files states.
    pub fn files(&self) -> &[WideFile]
        ensures { result.now ≡ self.now }
    {
        self.files.as_slice()
    }

    /// These files, and one more, which has these bytes and is told by the name. Returns the faults of `read_file`.
    pub fn with_file(
        self,
        alloc: Global,
        inputs: &mut InputFiles,
        name: &str,
        bytes: &[u8],
        options: CardOptions,
    ) -> Result<StatedFiles, IntakeFault>
        ensures { IfOk result (λ all. (file : WideFile) × (all ≡ self ++ file ∷ [])) }
    {
        let mut files = self.files;
        let mut held = self.held;
        let file = read_file(alloc, inputs, name, bytes, options, &mut held)?;
        files.push(file)?;
        Ok(StatedFiles { files, held })
    }

    /// What RECEIVE takes of the files. Returns `NoStatement` if they have no statement, `Statements` if a hold or a
    /// release cannot be carried, `Memory` if memory runs out.
    pub fn carry(
        self,
        alloc: Global,
        inputs: &InputFiles,
        options: Options,
    ) -> Result<Carried, IntakeFault>
        ensures files { IfOk result (λ made. made.files.items ≡ self) }
        ensures carries { IfOk result (λ made. CarriesFiles options.decide self made.narrowed.items.items
            made.narrowed.hold_items.items) }
        ensures unsure { IfOk result (λ made. AreUnsure (run_of self) made.narrowed.items.items
            made.narrowed.unsure.items) }
    {
        let files = self.files;
        let held = self.held;
        if held.is_empty() && !has_statement(&files) {
            return Err(IntakeFault::NoStatement);
        }
        match narrow(alloc, &files, held, options) {
            Ok(narrowed) => Ok(Carried { files, narrowed }),
            Err(CarryError::Memory) => Err(IntakeFault::Memory),
            Err(CarryError::Refused(remarks)) => Err(refusal_fault(alloc, inputs, &remarks)),
        }
    }
}

/// The statements of a file of these bytes, which is told by the name. Its holds outside SYSMODs are added to `held`:
/// each that the reader hands out, and no other. What the options do not give is guessed from the bytes. Returns
/// `NoCards` if the bytes cannot be read as cards, `Statements` if the cards have no statements that can be read,
/// `Memory` if memory runs out.
pub fn read_file(
    alloc: Global,
    inputs: &mut InputFiles,
    name: &str,
    bytes: &[u8],
    options: CardOptions,
    held: &mut OutsideHolds,
) -> Result<WideFile, IntakeFault>
    ensures { IfOk result (λ file. AddsHoldsAt file.held.items held.old held.new) }
{
    let mut cards = inputs.open_cards(alloc, name, bytes, options)?;
    let mut notes = Vec::new(alloc);
    let file = match read_statements(alloc, &mut cards, &mut notes, held) {
        Ok(file) => file,
        Err(error) => return Err(IntakeFault::of_statement(alloc, inputs, &error)),
    };
    inputs.add_card_notes(alloc, &notes)?;
    Ok(file)
}

// Whether a file has any statement, but for holds outside SYSMODs.
fn has_statement(files: &[WideFile]) -> bool {
    files.iter().any(|file| !file.sysmods.is_empty()
        || !file.releases.is_empty()
        || !file.assigns.is_empty()
        || !file.others.is_empty())
}
