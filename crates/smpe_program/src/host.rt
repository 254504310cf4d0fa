//! The input and output of the system on which the program runs.
ghost use Rattle.std.specs.Prelude.{IsTrue, IfOk, IfErr};
ghost use Rattle.sqlite.specs.Files.{file_state, IsOpened};
ghost use Rattle.sqlite.specs.Held.{IsNew};
ghost use Rattle.sqlite.specs.Opening.{is_open_error};
ghost use Rattle.sqlite.specs.State.{HasCleanDisk};
ghost use Rattle.smpe_program.specs.Wary.{IsWary};

use crate::copy::{CopyFault, read_for_copy};
use crate::input::read_input;
use crate::left::LeftDatabase;
use crate::new_file::write_new_file;
use crate::place::{belongs_to_database, is_missing, is_surely_no_database};
use crate::related_zone::query_related_zone;
use clap::Error as WordsError;
use smpe_command::{DatabaseBytes, DatabaseFile, Host};
use smpe_hints::{CommandLine, has_whole_records};
use smpe_warnings::{ReadFile, RelatedZone};
use sqlite::{Connection, Error, ErrorCode, FileFrom, FileStore, Wary};
use sqlite_disk::Tally;
use std::io::{ErrorKind, IsTerminal};
use std::time::Duration;
use std::{fs, io, thread};

/// The files of a database. Nothing is assumed about the bytes that a torn write leaves in them.
pub(crate) type DatabaseFiles = FileStore<FileFrom<Wary>>;

// A database that the program creates has no checksums on its pages, because a sqlite3 without the extension for
// checksums would spoil them.
const NEW_HAS_CHECKSUMS: bool = false;

// What is said of a new file that is not made because a database would take it for its own.
const NAME_OF_DATABASE: &str = "the database beside it has this name for its log or journal";

/// The database that the words ask for.
#[derive(Drop)]
pub(crate) struct Database {
    pub(crate) name: String,
    pub(crate) state: DatabaseState,
}

/// What is known of a database when the program ends.
#[derive(Clone, Copy)]
pub(crate) enum DatabaseState {
    /// It does not exist, and was not to be created.
    Missing,
    /// It was not opened, for this reason.
    Refused(Error),
    /// It was opened, and this was met when it was closed.
    Opened {
        is_new: bool,
        closing: Option<Closing>,
    },
    /// Its files were read, for a copy in memory.
    Copied,
}

/// What was met when a database was closed.
#[derive(Clone, Copy)]
pub(crate) struct Closing {
    /// Why its table `meta` was not read.
    pub(crate) meta: Option<Error>,
    /// Why its log was not moved over.
    pub(crate) log: Option<Error>,
    /// What the failed calls of its files met, since they were opened.
    pub(crate) tally: Tally,
}

impl Closing {
    // Closes the connection, and returns what was met. What was committed is moved from the log to the database's file;
    // if that fails, it remains in the log.
    fn close(mut conn: Connection<DatabaseFiles>) -> Closing {
        let meta = conn.query_row("SELECT v FROM meta", &[]).err();
        match conn.close_files() {
            Ok(files) => Closing {
                meta,
                log: None,
                tally: files.tally(),
            },
            Err((error, store)) => Closing {
                meta,
                log: Some(error),
                tally: store.close().tally(),
            },
        }
    }
}

/// The system, as seen from how the program was started.
#[derive(Drop)]
pub(crate) struct ProgramHost<'a> {
    rt: &'a HostRuntime,
    /// The words of the command line.
    line: CommandLine<'a>,
    /// Whether to create a database if there is none.
    may_create_database: bool,
    /// The zone that `--related` names, and what the database knows of it, for the hints.
    related_name: Option<&'a str>,
    pub(crate) related: RelatedZone,
    /// The database; `None` if the words ask for none, or if memory ran out when it was noted.
    pub(crate) database: Option<Database>,
    /// The connection that the command has closed, until the hints have asked it.
    pub(crate) left: LeftDatabase,
    /// The files of records that were read.
    pub(crate) files: Vec<ReadFile>,
    /// Why a file was not read, or not created.
    pub(crate) file_fault: Option<String>,
}

impl ProgramHost<'_> {
    /// A host that has read nothing and opened no database.
    pub(crate) fn new<'a>(
        rt: &'a HostRuntime,
        line: CommandLine<'a>,
        may_create_database: bool,
        related_name: Option<&'a str>,
    ) -> ProgramHost<'a> {
        ProgramHost {
            rt,
            line,
            may_create_database,
            related_name,
            related: RelatedZone::Unknown,
            database: None,
            left: LeftDatabase {
                alloc: rt.alloc(),
                conn: None,
            },
            files: Vec::new(rt.alloc()),
            file_fault: None,
        }
    }

    /// Closes the connection that the command has left, if there is one, and notes what was met.
    pub(crate) fn close_left(&mut self) {
        if let Some(mut open) = self.left.conn.take() {
            if let Some(name) = self.related_name {
                self.related = query_related_zone(&mut open, name).unwrap_or(RelatedZone::Unknown);
            }
            let met = Closing::close(open);
            if let Some(database) = &mut self.database
                && let DatabaseState::Opened { closing, .. } = &mut database.state
            {
                *closing = Some(met);
            }
        }
    }

    // Keeps a copy of a file of records, for the hints about its records. If memory runs out, these hints are left out.
    // If the file does not end with a whole record, it is refused by RECEIVE, and as a command file. Usually it is
    // typed text, so a line on standard error says what to do.
    fn keep_records(&mut self, name: &str, bytes: &[u8]) {
        if !has_whole_records(bytes) {
            let _ = eprintln!(self.rt;
                "smpe: {name} is no file of 80-byte records; smpe-cards makes one of text"
            );
        }
        let alloc = self.rt.alloc();
        if let (Ok(name), Ok(bytes)) = (
            String::from_str(alloc, name),
            Vec::from_slice(alloc, bytes),
        ) {
            let _ = self.files.push(ReadFile { name, bytes });
        }
    }

    // Notes why a file was not read or not created, for what is said at the end.
    fn note_file_fault(&mut self, name: &str, error: &io::Error) {
        self.file_fault = format!(in self.rt.alloc(); "{name}: {error}").ok();
    }

    // Notes what is known of the database of this name. If memory runs out, nothing is said of it at the end.
    fn note_database(&mut self, name: &str, state: DatabaseState) {
        self.database = match String::from_str(self.rt.alloc(), name) {
            Ok(name) => Some(Database { name, state }),
            Err(_) => None,
        };
    }

    // Whether this run has made the database.
    fn has_made_database(&self) -> bool {
        match &self.database {
            Some(database) => matches!(database.state, DatabaseState::Opened { is_new: true, .. }),
            None => false,
        }
    }

    // Notes why a database was not copied, for what is said at the end.
    fn note_copy_fault(&mut self, name: &str, fault: &CopyFault) {
        match fault {
            CopyFault::Unread(error) => self.note_file_fault(name, error),
            CopyFault::Unfit(why) => {
                self.file_fault = format!(in self.rt.alloc(); "{name}: {why}").ok();
            }
            CopyFault::NoDatabase => {
                let error = Error::SqliteFailure(ErrorCode::NotADatabase);
                self.note_database(name, DatabaseState::Refused(error));
            }
            CopyFault::Memory => {}
        }
    }

    // Opens the database. As long as another program has it, it tries again, for at most `wait` seconds. Returns
    // `DatabaseBusy` if the other program still has it then, and the errors of `open_once`.
    fn open_waiting(&self, name: &str, wait: u32) -> Result<Connection<DatabaseFiles>, Error>
        ensures ok { IfOk result (λ conn. IsNew conn × IsWary conn × (HasCleanDisk (file_state conn) → IsOpened conn)) }
        ensures err { IfErr result (λ why. IsTrue (is_open_error why)) }
    {
        for second in 0..wait {
            match self.open_once(name) {
                Err(Error::SqliteFailure(ErrorCode::DatabaseBusy)) => {
                    if second == 0 {
                        self.say_waiting(name);
                    }
                    thread::sleep(self.rt, Duration::from_secs(1));
                }
                outcome => return outcome,
            }
        }
        self.open_once(name)
    }

    // Says on a terminal what the program waits for.
    fn say_waiting(&self, name: &str) {
        if self.rt.stderr().is_terminal() {
            let _ = eprintln!(self.rt; "smpe: another program has {name}; waiting for it");
        }
    }

    // Opens the database once. Refuses a file that is no database with `NotADatabase`, before the library creates a log
    // next to it. Any other error is the library's.
    fn open_once(&self, name: &str) -> Result<Connection<DatabaseFiles>, Error>
        ensures ok { IfOk result (λ conn. IsNew conn × IsWary conn × (HasCleanDisk (file_state conn) → IsOpened conn)) }
        ensures err { IfErr result (λ why. IsTrue (is_open_error why)) }
    {
        if is_surely_no_database(self.rt, name) {
            return Err(Error::SqliteFailure(ErrorCode::NotADatabase));
        }
        match Connection::open_from(self.rt, name, NEW_HAS_CHECKSUMS, Wary) {
            Ok(conn) => Ok(conn),
            Err((error, _)) => Err(error),
        }
    }
}

// About a database, this says what `sqlite` promises when it opens one, and that commits assume nothing about the bytes
// that a torn write leaves. It says no more about the system: the other relations hold for everything.
impl Host for ProgramHost<'_> {
    type Disk = DatabaseFiles;

    ghost gives = { λ _ _ _ _. Unit {0} };

    ghost withholds = { λ _ _ _ _. Unit {0} };

    ghost writes = { λ _ _ _ _. Unit {0} };

    ghost cannot_write = { λ _ _ _ _. Unit {0} };

    ghost opens = { λ _ _ conn _. IsNew conn × IsWary conn × (HasCleanDisk (file_state conn) → IsOpened conn) };

    ghost holds = { λ _ _ _ _ _. Unit {0} };

    ghost refuses = { λ _ _ why _. IsTrue (is_open_error why) };

    ghost closes = { λ _ _ _. Unit {0} };

    ghost shows = { λ _ _ _. Unit {0} };

    ghost prints = { λ _ _ _. Unit {0} };

    // Files that no option names come as they are, and nothing is said of their records.
    fn read(&mut self, name: &str) -> io::Result<Vec<u8>> {
        let is_named = self.line.names_records(name);
        let read = if is_named {
            fs::read(self.rt, name)
        } else {
            read_input(self.rt, name)
        };
        match read {
            Ok(bytes) => {
                if is_named {
                    self.keep_records(name, bytes.as_slice());
                }
                Ok(bytes)
            }
            Err(error) => {
                self.note_file_fault(name, &error);
                Err(error)
            }
        }
    }

    fn write_new(&mut self, name: &str, bytes: &[u8]) -> io::Result<()> {
        if belongs_to_database(self.rt, name) {
            self.file_fault = format!(in self.rt.alloc(); "{name}: {NAME_OF_DATABASE}").ok();
            return Err(io::Error::from(ErrorKind::InvalidInput));
        }
        let written = write_new_file(self.rt, name, bytes);
        if let Err(error) = &written {
            self.note_file_fault(name, error);
        }
        written
    }

    fn open(&mut self, db: &DatabaseFile) -> Result<Connection<Self::Disk>, sqlite::Error> {
        self.close_left();
        let name = db.name.as_str();
        let is_missing = is_missing(self.rt, name);
        if is_missing && !self.may_create_database {
            self.note_database(name, DatabaseState::Missing);
            return Err(Error::SqliteFailure(ErrorCode::CannotOpen));
        }
        // (a careful job opens its database twice, and may have made it the first time)
        let is_new = is_missing || self.has_made_database();
        match self.open_waiting(name, db.wait) {
            Ok(conn) => {
                let closing = None;
                self.note_database(name, DatabaseState::Opened { is_new, closing });
                Ok(conn)
            }
            Err(error) => {
                self.note_database(name, DatabaseState::Refused(error));
                Err(error)
            }
        }
    }

    // The database's file and its log are opened only for reading and are not locked, so a job may have them open.
    fn read_database(&mut self, db: &DatabaseFile) -> Result<DatabaseBytes, sqlite::Error> {
        let name = db.name.as_str();
        if is_missing(self.rt, name) {
            self.note_database(name, DatabaseState::Missing);
            return Err(Error::SqliteFailure(ErrorCode::CannotOpen));
        }
        match read_for_copy(self.rt, name, db.wait) {
            Ok(bytes) => {
                self.note_database(name, DatabaseState::Copied);
                Ok(bytes)
            }
            Err(fault) => {
                self.note_copy_fault(name, &fault);
                Err(fault.library_error())
            }
        }
    }

    // The program closes the connection when the hints have asked it, or before it opens another.
    fn close(&mut self, conn: &mut Option<Connection<Self::Disk>>) {
        self.close_left();
        self.left.conn = conn.take();
    }

    fn show_error(&mut self, error: &WordsError) {
        let _ = self.rt.eprint(error);
    }

    fn print_help(&mut self, error: &WordsError) {
        let _ = self.rt.print(error);
    }
}
