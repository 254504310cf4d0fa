//! The files, input and output of the system that the program runs on.

use intake_command::{IntakeHost, NamedFile};
use std::fs::{File, OpenOptions};
use std::io::{ErrorKind, Read, Write};
use std::os::unix::fs::FileTypeExt;
use std::path::PathBuf;
use std::{fs, io};

/// The size of the largest input, in bytes.
const LARGEST_INPUT: u64 = 536_870_912;

/// How many bytes of a file are enough for the first line of remarks.
const START_SIZE: u64 = 256;

/// How many new names are tried for a file.
const MOST_NAMES: u32 = 10_000;

/// A file that this run writes, under a name that no file had.
#[derive(Drop)]
struct Draft {
    /// What the file is to be called.
    name: &'static str,
    path: String,
    file: File,
}

/// A file that was given another name.
#[derive(Drop)]
struct Renaming {
    from: String,
    to: String,
}

/// The system, as the runtime gives access to it.
#[derive(Drop)]
pub(crate) struct FileSystem<'a> {
    rt: &'a HostRuntime,
    drafts: Vec<Draft>,
    /// Whether this run has made the folder.
    has_made_folder: bool,
}

// Nothing is said of the system: each act may lead from anything to anything.
impl IntakeHost for FileSystem<'_> {
    ghost does = { λ _ _ _. Unit {0} };

    fn read(&mut self, name: &str) -> io::Result<Vec<u8>> {
        self.check_input(name)?;
        let bytes = self.read_at_most(name, LARGEST_INPUT.saturating_add(1))?;
        if bytes.len() as u64 > LARGEST_INPUT {
            return Err(io::Error::from(ErrorKind::FileTooLarge));
        }
        Ok(bytes)
    }

    fn read_start(&mut self, path: &str) -> io::Result<Option<Vec<u8>>> {
        if !self.is_regular_file(path)? {
            return Ok(None);
        }
        Ok(Some(self.read_at_most(path, START_SIZE)?))
    }

    fn is_present(&mut self, path: &str) -> io::Result<bool> {
        match fs::symlink_metadata(self.rt, path) {
            Ok(_) => Ok(true),
            Err(error) if is_absent(error.kind()) => Ok(false),
            Err(error) => Err(error),
        }
    }

    fn is_same(&mut self, first: &str, second: &str) -> io::Result<bool> {
        let Some(first_path) = self.path_of_existing(first)? else {
            return Ok(false);
        };
        let Some(second_path) = self.path_of_existing(second)? else {
            return Ok(false);
        };
        Ok(first_path == second_path)
    }

    fn append_to_draft(
        &mut self,
        folder: &str,
        name: &'static str,
        bytes: &[u8],
    ) -> io::Result<()> {
        if !self.drafts.iter().any(|draft| draft.name == name) {
            self.begin_draft(folder, name)?;
        }
        for draft in self.drafts.iter_mut() {
            if draft.name == name {
                draft.file.write_all(bytes)?;
            }
        }
        Ok(())
    }

    fn discard_drafts(&mut self, folder: &str) {
        for draft in self.drafts.iter() {
            let _ = fs::remove_file(self.rt, draft.path.as_str());
        }
        self.drafts.clear();
        if self.has_made_folder {
            let _ = fs::remove_dir(self.rt, folder);
        }
    }

    fn keep(
        &mut self,
        folder: &str,
        files: &[NamedFile],
        removed: &[&'static str],
    ) -> io::Result<()> {
        for file in files {
            self.append_to_draft(folder, file.name, &file.bytes)?;
        }
        for draft in self.drafts.iter() {
            draft.file.sync_all()?;
        }
        self.replace_or_undo(folder, files, removed)?;
        self.drafts.clear();
        Ok(())
    }

    fn print(&mut self, text: &[u8]) -> io::Result<()> {
        self.rt.stdout().write_all(text)
    }

    fn tell(&mut self, text: &[u8]) {
        let _ = self.rt.stderr().write_all(text);
    }

    fn show(&mut self, error: &clap::Error) -> io::Result<()> {
        error.print(self.rt)
    }
}

// Whether the error says that there is no such file.
fn is_absent(kind: ErrorKind) -> bool {
    matches!(kind, ErrorKind::NotFound | ErrorKind::NotADirectory)
}

impl<'a> FileSystem<'a> {
    /// The files and streams of the system. No file has a draft.
    pub(crate) fn new(rt: &'a HostRuntime) -> FileSystem<'a> {
        FileSystem {
            rt,
            drafts: Vec::new(rt.alloc()),
            has_made_folder: false,
        }
    }

    // The absolute path of a file, without links. Returns `None` if no file of that name exists or can be reached: the
    // program then neither reads nor writes one.
    fn path_of_existing(&self, name: &str) -> io::Result<Option<PathBuf>> {
        match fs::canonicalize(self.rt, name) {
            Ok(path) => Ok(Some(path)),
            Err(error) => match error.kind() {
                ErrorKind::NotFound | ErrorKind::NotADirectory | ErrorKind::PermissionDenied => Ok(
                    None,
                ),
                _ => Err(error),
            },
        }
    }

    // Checks that reading the input ends: it is a file that is not too large, or a pipe that another program has open,
    // as `<(..)` gives one. Such a pipe has no path, and opening it does not wait. Returns `IsADirectory` for a folder,
    // `InvalidInput` for a device or a named pipe, and `FileTooLarge`.
    fn check_input(&self, name: &str) -> io::Result<()> {
        let metadata = fs::metadata(self.rt, name)?;
        if metadata.is_file() {
            if metadata.len() > LARGEST_INPUT {
                return Err(io::Error::from(ErrorKind::FileTooLarge));
            }
            return Ok(());
        }
        if metadata.is_dir() {
            return Err(io::Error::from(ErrorKind::IsADirectory));
        }
        if metadata.file_type().is_fifo() && self.path_of_existing(name)?.is_none() {
            return Ok(());
        }
        Err(io::Error::from(ErrorKind::InvalidInput))
    }

    // The first bytes of the file, at most so many.
    fn read_at_most(&self, name: &str, most: u64) -> io::Result<Vec<u8>> {
        let mut bytes = Vec::new(self.rt.alloc());
        let mut start = fs::open(self.rt, name)?.take(most);
        start.read_to_end(&mut bytes)?;
        Ok(bytes)
    }

    // Whether this path is that of a file, and of no link, folder, device or pipe.
    fn is_regular_file(&self, path: &str) -> io::Result<bool> {
        match fs::symlink_metadata(self.rt, path) {
            Ok(metadata) => Ok(metadata.is_file()),
            Err(error) if is_absent(error.kind()) => Ok(false),
            Err(error) => Err(error),
        }
    }

    // Begins the draft of the file. The folder is made if it does not exist.
    fn begin_draft(&mut self, folder: &str, name: &'static str) -> io::Result<()> {
        if !fs::exists(self.rt, folder)? {
            fs::create_dir_all(self.rt, folder)?;
            self.has_made_folder = true;
        }
        let draft = self.new_file(folder, name, "new")?;
        self.drafts.push(draft)?;
        Ok(())
    }

    // A new file in the folder, with a name that no file has. It is created exclusively: no link is followed, and
    // nothing that exists is opened.
    fn new_file(&self, folder: &str, name: &'static str, ending: &str) -> io::Result<Draft> {
        let alloc = self.rt.alloc();
        for number in 1..MOST_NAMES {
            let path = format!(in alloc; "{folder}/{name}.{ending}-{number}")?;
            match OpenOptions::new()
                .write(true)
                .create_new(true)
                .open(self.rt, path.as_str())
            {
                Ok(file) => return Ok(Draft { name, path, file }),
                Err(error) if error.kind() == ErrorKind::AlreadyExists => {}
                Err(error) => return Err(error),
            }
        }
        Err(io::Error::from(ErrorKind::AlreadyExists))
    }

    // Replaces the files by their drafts and removes the other ones. After an error, each file has its old name again.
    fn replace_or_undo(
        &self,
        folder: &str,
        files: &[NamedFile],
        removed: &[&'static str],
    ) -> io::Result<()> {
        let mut earlier = Vec::new(self.rt.alloc());
        let mut renamed = Vec::new(self.rt.alloc());
        let outcome = self.replace_all(folder, files, removed, &mut earlier, &mut renamed);
        if outcome.is_err() {
            self.undo(&renamed);
            self.undo(&earlier);
            return outcome;
        }
        self.sync_folder_if_possible(folder);
        for renaming in earlier.iter() {
            let _ = fs::remove_file(self.rt, renaming.to.as_str());
        }
        Ok(())
    }

    // Renames all files of an earlier run, the remarks last, and then gives the drafts their names, the remarks first.
    // So whenever the run is broken off, the remarks in the folder name each of these files that is there, and the
    // files there are of one run.
    fn replace_all(
        &self,
        folder: &str,
        files: &[NamedFile],
        removed: &[&'static str],
        earlier: &mut Vec<Renaming>,
        renamed: &mut Vec<Renaming>,
    ) -> io::Result<()> {
        for name in removed {
            self.set_aside(folder, *name, earlier)?;
        }
        for file in files {
            self.set_aside(folder, file.name, earlier)?;
        }
        for file in files.iter().rev() {
            self.name_draft(folder, file.name, renamed)?;
        }
        Ok(())
    }

    // Gives the file of an earlier run a name that no file has, if it exists. Returns `AlreadyExists` if it is not a
    // file, but a link or a folder.
    fn set_aside(
        &self,
        folder: &str,
        name: &'static str,
        earlier: &mut Vec<Renaming>,
    ) -> io::Result<()> {
        let path = self.path_in(folder, name)?;
        match fs::symlink_metadata(self.rt, path.as_str()) {
            Ok(metadata) if metadata.is_file() => {}
            Ok(_) => return Err(io::Error::from(ErrorKind::AlreadyExists)),
            Err(error) if is_absent(error.kind()) => return Ok(()),
            Err(error) => return Err(error),
        }
        let free = self.new_file(folder, name, "old")?;
        let to = String::from_str(self.rt.alloc(), free.path.as_str())?;
        let outcome = self.rename(path, to, earlier);
        if outcome.is_err() {
            let _ = fs::remove_file(self.rt, free.path.as_str());
        }
        outcome
    }

    // Gives the draft the name of its file.
    fn name_draft(
        &self,
        folder: &str,
        name: &'static str,
        renamed: &mut Vec<Renaming>,
    ) -> io::Result<()> {
        let alloc = self.rt.alloc();
        for draft in self.drafts.iter() {
            if draft.name == name {
                let from = String::from_str(alloc, draft.path.as_str())?;
                return self.rename(from, self.path_in(folder, name)?, renamed);
            }
        }
        Err(io::Error::from(ErrorKind::NotFound))
    }

    // Renames a file, and notes it.
    fn rename(&self, from: String, to: String, done: &mut Vec<Renaming>) -> io::Result<()> {
        done.reserve(1)?;
        fs::rename(self.rt, from.as_str(), to.as_str())?;
        done.push(Renaming { from, to })?;
        Ok(())
    }

    // Gives the files their old names again, the last one first. A file that cannot be renamed is left.
    fn undo(&self, done: &[Renaming]) {
        for renaming in done.iter().rev() {
            let _ = fs::rename(self.rt, renaming.to.as_str(), renaming.from.as_str());
        }
    }

    // Has the system write the folder to the disk. Some file systems cannot do that for a folder.
    fn sync_folder_if_possible(&self, folder: &str) {
        if let Ok(open) = fs::open(self.rt, folder) {
            let _ = open.sync_all();
        }
    }

    // The path of the file.
    fn path_in(&self, folder: &str, name: &str) -> io::Result<String> {
        let alloc = self.rt.alloc();
        Ok(format!(in alloc; "{folder}/{name}")?)
    }
}
