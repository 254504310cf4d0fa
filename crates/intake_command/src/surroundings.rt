//! What the program asks of its surroundings.
//!
//! The draft of a file is its beginning, written under a new name in the folder, which no other file has. A long file
//! is written in parts: the first parts are appended to its draft, and `keep` puts the draft before the bytes that it
//! is given, and gives the whole its name.
ghost use Rattle.std.specs.Prelude.{IfOk, IfErr, OnOk, OnErr, map, option_map};
ghost use Rattle.intake_command.specs.Acts.{HostAct, Gives, Withholds, Begins, Finds, Compares};
ghost use Rattle.intake_command.specs.Acts.{Drafts, Discards, Puts, Leaves, Prints, Speaks};
ghost use Rattle.intake_command.specs.Files.{named};

use crate::files::NamedFile;
use std::io;

/// The surroundings of the program.
pub trait IntakeHost {
    /// The act leads from the surroundings before it to those after it.
    ghost does: { Self → HostAct → Self → Type 0 };

    /// Reads a whole file. The error says why it cannot be read.
    fn read(&mut self, name: &str) -> io::Result<Vec<u8>>
        ensures ok { IfOk result (λ bytes. does self.old (Gives name.now bytes.items) self.new) }
        ensures err { IfErr result (λ error. does self.old (Withholds name.now error) self.new) };

    /// Reads the first bytes of a file, enough for the first line of remarks. Returns `None` if there is no such file.
    /// The error says why it cannot be read.
    fn read_start(&mut self, path: &str) -> io::Result<Option<Vec<u8>>>
        ensures ok { IfOk result (λ start. does self.old (Begins path.now (option_map (λ bytes. bytes.items) start))
            self.new) }
        ensures err { IfErr result (λ error. does self.old (Withholds path.now error) self.new) };

    /// Whether something has this path: a file, a folder, or a link, even one that leads nowhere. The error says why
    /// that cannot be found out.
    fn is_present(&mut self, path: &str) -> io::Result<bool>
        ensures ok { IfOk result (λ there. does self.old (Finds path.now there) self.new) }
        ensures err { IfErr result (λ error. does self.old (Withholds path.now error) self.new) };

    /// Whether both names are of one file that exists. The error says why that cannot be found out.
    fn is_same(&mut self, first: &str, second: &str) -> io::Result<bool>
        ensures ok { IfOk result (λ same. does self.old (Compares first.now second.now same) self.new) }
        ensures err { IfErr result (λ error. does self.old (Withholds first.now error) self.new) };

    /// Appends the bytes to the draft of the file of this name. The first call of a run for the file makes its draft,
    /// under a name that no file has. The folder is made if it does not exist. The error says why the bytes cannot be
    /// appended.
    fn append_to_draft(&mut self, folder: &str, name: &'static str, bytes: &[u8]) -> io::Result<()>
        ensures ok { OnOk result (does self.old (Drafts folder.now name.now bytes.now) self.new) }
        ensures err { IfErr result (λ error. does self.old (Leaves folder.now error) self.new) };

    /// Removes the drafts of this run from the folder, as far as that is possible.
    fn discard_drafts(&mut self, folder: &str)
        ensures { does self.old (Discards folder.now) self.new };

    /// Puts the files into the folder, each with its draft before its bytes, in place of those of an earlier run, and
    /// removes the other ones, if they exist. The folder is made if it does not exist. The error says why that cannot
    /// be done; then the folder has the files that it had.
    fn keep(
        &mut self,
        folder: &str,
        files: &[NamedFile],
        removed: &[&'static str],
    ) -> io::Result<()>
        ensures ok { OnOk result (does self.old (Puts folder.now (map named files.now) (map (λ name. name.now)
            removed.now)) self.new) }
        ensures err { IfErr result (λ error. does self.old (Leaves folder.now error) self.new) };

    /// Writes on standard output. The error says why that cannot be done.
    fn print(&mut self, text: &[u8]) -> io::Result<()>
        ensures ok { OnOk result (does self.old (Prints text.now) self.new) }
        ensures err { OnErr result (does self.old Speaks self.new) };

    /// Writes on standard error, if it can.
    fn tell(&mut self, text: &[u8])
        ensures { does self.old Speaks self.new };

    /// Prints the text of the error: help and version on standard output, all others on standard error.
    fn show(&mut self, error: &clap::Error) -> io::Result<()>
        ensures { does self.old Speaks self.new };
}
