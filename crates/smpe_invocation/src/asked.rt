//! What the program can be asked to do.
use fields::{Id, Srel, YyDdd, ZoneName};
use terms::ZoneKind;

/// The file of a database, by its name, and for how many seconds to wait if another program has it.
#[derive(Drop)]
pub struct DatabaseFile {
    pub name: String,
    pub wait: u32,
}

/// A file of commands, by its name, and the date of the job that they make.
#[derive(Drop)]
pub struct CommandJob {
    pub cntl: String,
    pub date: YyDdd,
}

/// The files of a service set, by their names.
#[derive(Drop)]
pub enum SetFiles {
    /// Records, as RECEIVE reads them.
    Records { ptfin: String, hold: Option<String> },
    /// A shop's own files, as they come. There is at least one.
    AsTheyCome(Vec<String>),
}

/// A service set, and the commands to check it with, unless all of it is installed.
#[derive(Drop)]
pub struct ServiceSet {
    pub files: SetFiles,
    pub commands: Option<CommandJob>,
}

/// A copy of a database, the zone into which a service set is tried, and the ids about which `why` is asked afterwards.
#[derive(Drop)]
pub struct SystemCopy {
    pub db: DatabaseFile,
    pub zone: ZoneName,
    pub ids: Vec<Id>,
}

/// The system in which a service set is checked.
#[derive(Drop)]
pub enum CheckedSystem {
    /// An empty one, with zones of this SREL.
    Empty(Srel),
    Copied(SystemCopy),
}

/// A zone to define.
#[derive(Drop)]
pub struct ZoneDefinition {
    pub name: ZoneName,
    pub kind: ZoneKind,
    pub srel: Srel,
    pub related: Option<ZoneName>,
}

/// The files of a job, by their names, and its date.
#[derive(Drop)]
pub struct RunOptions {
    pub date: YyDdd,
    pub cntl: String,
    pub ptfin: Option<String>,
    pub hold: Option<String>,
    /// Whether to run the job only if it has a command and each zone that its SETs name is defined.
    pub careful: bool,
}

/// The ids to ask about, in which zone, and how to judge them.
#[derive(Drop)]
pub struct WhyOptions {
    pub zone: ZoneName,
    pub ids: Vec<Id>,
    /// Whether they are judged as the candidates of one command, and not each by itself.
    pub together: bool,
    /// Whether they are judged with the requisites that GROUPEXTEND brings in.
    pub group: bool,
    /// The members of BYPASS.
    pub bypass: Option<String>,
}

/// The form in which the findings of `lint` are printed.
#[derive(Clone, Copy)]
pub enum LintForm {
    Text,
    Json,
}

/// The files of a service stream, by their names, the SREL of the systems that it is for, and the form of the answer.
#[derive(Drop)]
pub struct LintOptions {
    pub srel: Srel,
    pub form: LintForm,
    /// There is at least one.
    pub files: Vec<String>,
}

/// The form in which `check` answers.
#[derive(Clone, Copy)]
pub enum CheckForm {
    /// What becomes of each SYSMOD of the set, and what keeps the others out.
    Summary,
    /// The reports of the commands.
    Report,
    Json,
}

/// The form of the answer of `check`, and the name of a new file for the certificate of its decision.
#[derive(Drop)]
pub struct CheckAnswer {
    pub form: CheckForm,
    pub certificate: Option<String>,
}

/// The SYSMODs that do not go on, and the files of the service to mend them with, by their names.
#[derive(Drop)]
pub struct MendOptions {
    /// There is at least one.
    pub ids: Vec<Id>,
    /// There is at least one.
    pub files: Vec<String>,
}

/// What `smpe` is asked to do. The texts are the names of files.
#[derive(Drop)]
pub enum Invocation {
    /// Define a zone.
    Zone {
        db: DatabaseFile,
        definition: ZoneDefinition,
    },
    /// Run a job.
    Run {
        db: DatabaseFile,
        options: RunOptions,
    },
    /// List a zone.
    List {
        db: DatabaseFile,
        zone: ZoneName,
    },
    /// Tell the facts about ids in a zone, and what an install would make of them.
    Why {
        db: DatabaseFile,
        options: WhyOptions,
    },
    /// Tell what a service set would do in a system, and change no database.
    Check {
        system: CheckedSystem,
        set: ServiceSet,
        answer: CheckAnswer,
    },
    /// Tell what to do that SYSMODs go on in a system, and change no database. A copy has no ids to ask about.
    Mend {
        system: CheckedSystem,
        options: MendOptions,
    },
    /// Tell what keeps a service stream from being clean, by its files alone.
    Lint {
        options: LintOptions,
    },
    /// Migrate a database of an earlier schema to the program's own.
    Migrate {
        db: DatabaseFile,
    },
    /// Tell whether the tables of a database stand for a state, and whether its zones are closed.
    Verify {
        db: DatabaseFile,
    },
}
