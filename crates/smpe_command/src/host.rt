//! What the program asks of its surroundings.
ghost use Rattle.std.specs.Prelude.{◌≡◌, ℕ, List, None, false, IfSome, IfOk, IfErr};
ghost use Rattle.std.specs.String.{string_bytes};
ghost use Rattle.std.specs.declared.io.Error.{Error as IoError};
ghost use Rattle.sqlite.specs.declared.error.Error.{Error};
ghost use Rattle.sqlite.specs.Held.{Held};
ghost use Rattle.clap.specs.declared.error.Error.{Error as WordsError};

use smpe::DatabaseFile;
use smpe_rehearsal::DatabaseBytes;
use sqlite::{Alter, Connection};
use std::io;

/// The surroundings of the program. Each ghost member relates them before a call, what was asked and answered, and them
/// after it.
pub trait Host {
    /// The place where a database is kept.
    type Disk: Alter + Drop;

    /// The file of this name was read, and has these bytes.
    ghost gives: { Self → List ℕ → List ℕ → Self → Type 0 };

    /// The file of this name was not read, for this error.
    ghost withholds: { Self → List ℕ → IoError → Self → Type 0 };

    /// A new file of this name now has these bytes.
    ghost writes: { Self → List ℕ → List ℕ → Self → Type 0 };

    /// No new file of this name was made, for this error.
    ghost cannot_write: { Self → List ℕ → IoError → Self → Type 0 };

    /// The database of this name was opened, or created, and this is the connection to it.
    ghost opens: { Self → List ℕ → Held Self.Disk → Self → Type 0 };

    /// The files of the database of this name were only read: its file and its log have these bytes.
    ghost holds: { Self → List ℕ → List ℕ → List ℕ → Self → Type 0 };

    /// The database of this name was not opened or not read, for this error.
    ghost refuses: { Self → List ℕ → Error → Self → Type 0 };

    /// The connection was closed.
    ghost closes: { Self → Held Self.Disk → Self → Type 0 };

    /// The text of `clap`'s error was shown on standard error.
    ghost shows: { Self → WordsError → Self → Type 0 };

    /// The text of `--help` or `--version`, which `clap` returns as an error, was printed on standard output.
    ghost prints: { Self → WordsError → Self → Type 0 };

    /// Reads the whole file. The error says why it cannot be read.
    fn read(&mut self, name: &str) -> io::Result<Vec<u8>>
        ensures ok { IfOk result (λ bytes. gives self.old name.now bytes.items self.new) }
        ensures err { IfErr result (λ error. withholds self.old name.now error self.new) };

    /// Writes these bytes into a new file. If there is already something of this name, it is not touched. The error
    /// says why there is no new file.
    fn write_new(&mut self, name: &str, bytes: &[u8]) -> io::Result<()>
        ensures ok { IfOk result (λ _. writes self.old name.now bytes.now self.new) }
        ensures err { IfErr result (λ error. cannot_write self.old name.now error self.new) };

    /// Opens the database, or creates it. If another program has it, this may wait for it, as long as the words say.
    /// The error says why the database cannot be used.
    fn open(&mut self, db: &DatabaseFile) -> Result<Connection<Self::Disk>, sqlite::Error>
        ensures ok { IfOk result (λ conn. opens self.old (string_bytes db.now.name) conn self.new) }
        ensures err { IfErr result (λ error. refuses self.old (string_bytes db.now.name) error self.new) }
        ensures mode { IfOk result (λ conn. conn.in_transaction ≡ false) };

    /// Reads the files of a database, and changes nothing. If another program is changing them, this may wait until
    /// that is done, as long as the words say. The error says why the files cannot be read.
    fn read_database(&mut self, db: &DatabaseFile) -> Result<DatabaseBytes, sqlite::Error>
        ensures ok { IfOk result (λ files. holds self.old (string_bytes db.now.name) files.db.items files.log.items
            self.new) }
        ensures err { IfErr result (λ error. refuses self.old (string_bytes db.now.name) error self.new) };

    /// Closes the connection, if there is one, and takes it out of the option. (An impl over the system's files that
    /// took the connection by value could not be proved.)
    fn close(&mut self, conn: &mut Option<Connection<Self::Disk>>)
        ensures closed { IfSome conn.old (λ conn. closes self.old conn self.new) }
        ensures taken { conn.new ≡ None };

    /// Shows the text of the error on standard error.
    fn show_error(&mut self, error: &clap::Error)
        ensures { shows self.old error.now self.new };

    /// Prints on standard output the text of `--help` or `--version`, which `clap` returns as an error.
    fn print_help(&mut self, error: &clap::Error)
        ensures { prints self.old error.now self.new };
}
