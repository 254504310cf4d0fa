//! The files that are written.
ghost use Rattle.std.specs.Prelude.{◌≡◌, ◌∷◌, [], IfOk, codes, map, option_map};
ghost use Rattle.std.specs.String.{string_bytes};
ghost use Rattle.intake_command.specs.Files.{named, path_of, outputs_of, remarks_of, service_outputs, command_outputs};
ghost use Rattle.intake_command.specs.Files.{plain_files, service_names, first_line, written, written_in};
ghost use Rattle.intake_command.specs.Keeping.{service_files, service_removals};

use intake_words::IntakeOptions;
use std::alloc::{AllocError, Global};

/// A file of the folder: its name there, and its bytes.
#[derive(Debug, Drop)]
pub struct NamedFile {
    pub name: &'static str,
    pub bytes: Vec<u8>,
}

/// The path of a file in the folder.
pub(crate) fn output_path(alloc: Global, folder: &str, output: &str) -> Result<String, AllocError>
    ensures { IfOk result (λ path. string_bytes path ≡ path_of folder.now output.now) }
{
    let mut path = String::from_str(alloc, folder)?;
    path.push_str("/")?;
    path.push_str(output)?;
    Ok(path)
}

/// The names of all files that a run over SYSMODs and holds may write into the folder.
pub(crate) fn service_outputs() -> &'static [&'static str]
    ensures { map (λ name. name.now) result.now ≡ service_outputs }
{
    &["ptfin", "hold", "stand-ins", "remarks"]
}

// The names of the files of such a run without stand-ins.
fn plain_files() -> &'static [&'static str]
    ensures { map (λ name. name.now) result.now ≡ plain_files }
{
    &["ptfin", "hold", "remarks"]
}

/// The names of the files that a run over a command file may write into the folder.
pub(crate) fn command_outputs() -> &'static [&'static str]
    ensures { map (λ name. name.now) result.now ≡ command_outputs }
{
    &["cntl", "cntl.remarks"]
}

/// The names of the files that this run may write.
pub(crate) fn outputs_of(asked: &IntakeOptions) -> &'static [&'static str]
    ensures { map (λ name. name.now) result.now ≡ outputs_of asked.now }
{
    match &asked.cntl {
        Some(_) => command_outputs(),
        None => service_outputs(),
    }
}

/// The name of the file of remarks of this run.
pub(crate) fn remarks_of(asked: &IntakeOptions) -> &'static str
    ensures { result.now ≡ remarks_of asked.now }
{
    match &asked.cntl {
        Some(_) => "cntl.remarks",
        None => "remarks",
    }
}

/// The first line of the remarks of a run with stand-ins or without them. It names the files that the run writes.
pub(crate) fn service_line(has_stand_ins: bool) -> &'static [u8]
    ensures { result.now ≡ first_line (service_names has_stand_ins) }
{
    if has_stand_ins {
        b"Written by smpe-intake: ptfin hold stand-ins remarks\n"
    } else {
        b"Written by smpe-intake: ptfin hold remarks\n"
    }
}

/// The first line of the remarks on a command file. It names the files that the run writes.
pub(crate) fn command_line() -> &'static [u8]
    ensures { result.now ≡ first_line command_outputs }
{
    b"Written by smpe-intake: cntl cntl.remarks\n"
}

// The names of the files that an earlier run wrote, whose remarks begin with these bytes. There are none if no run
// wrote the bytes.
fn written(start: &[u8]) -> &'static [&'static str]
    ensures { map (λ name. name.now) result.now ≡ written start.now }
{
    if start.starts_with(service_line(false)) {
        plain_files()
    } else if start.starts_with(service_line(true)) {
        service_outputs()
    } else if start.starts_with(command_line()) {
        command_outputs()
    } else {
        &[]
    }
}

/// The names of the files that an earlier run wrote. Its remarks begin with the bytes, if the folder has a file of
/// remarks.
pub(crate) fn written_in(start: &Option<Vec<u8>>) -> &'static [&'static str]
    ensures { map (λ name. name.now) result.now ≡ written_in (option_map (λ bytes. bytes.items) start.now) }
{
    match start {
        Some(start) => written(start.as_slice()),
        None => &[],
    }
}

/// The files of a run over SYSMODs and holds, without stand-ins or with them.
pub(crate) fn service_files(
    alloc: Global,
    ptfin: Vec<u8>,
    hold: Vec<u8>,
    stand_ins: Option<Vec<u8>>,
    remarks: Vec<u8>,
) -> Result<Vec<NamedFile>, AllocError>
    ensures { IfOk result (λ files. map named files.items
        ≡ service_files ptfin.items hold.items (option_map (λ bytes. bytes.items) stand_ins) remarks.items) }
{
    let ptfin = NamedFile {
        name: "ptfin",
        bytes: ptfin,
    };
    let hold = NamedFile {
        name: "hold",
        bytes: hold,
    };
    let remarks = NamedFile {
        name: "remarks",
        bytes: remarks,
    };
    match stand_ins {
        Some(bytes) => {
            let stand_ins = NamedFile {
                name: "stand-ins",
                bytes,
            };
            Ok(Vec::from_array(alloc, [ptfin, hold, stand_ins, remarks])?)
        }
        None => Ok(Vec::from_array(alloc, [ptfin, hold, remarks])?),
    }
}

/// The files of an earlier run that a run over SYSMODs and holds removes: the stand-ins, if it writes none.
pub(crate) fn service_removals(stand_ins: &Option<Vec<u8>>) -> &'static [&'static str]
    ensures { map (λ name. name.now) result.now
        ≡ service_removals (option_map (λ bytes. bytes.items) stand_ins.now) }
{
    match stand_ins {
        Some(_) => &[],
        None => &["stand-ins"],
    }
}

/// The files of a run over a command file.
pub(crate) fn command_files(cntl: Vec<u8>, remarks: Vec<u8>) -> [NamedFile; 2]
    ensures { map named result ≡ (codes "cntl", cntl.items) ∷ (codes "cntl.remarks", remarks.items) ∷ [] }
{
    [
        NamedFile {
            name: "cntl",
            bytes: cntl,
        },
        NamedFile {
            name: "cntl.remarks",
            bytes: remarks,
        },
    ]
}
