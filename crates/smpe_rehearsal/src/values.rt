//! What a rehearsal takes.

use fields::{Source, Srel, YyDdd, ZoneName};
use mcs::{HoldItem, Item};

/// The bytes of a database's file and of its log.
#[derive(Drop)]
pub struct DatabaseBytes {
    pub db: Vec<u8>,
    pub log: Vec<u8>,
}

/// The bytes of the files of a job.
#[derive(Drop)]
pub struct JobFiles {
    pub cntl: Vec<u8>,
    pub ptfin: Vec<u8>,
    pub hold: Vec<u8>,
}

/// The items of a package.
#[derive(Drop)]
pub struct PackageItems {
    pub items: Vec<Item>,
    pub hold_items: Vec<HoldItem>,
}

/// The jobs that rehearse a service set: one receives it, and one runs the commands of its files.
#[derive(Drop)]
pub struct Rehearsal {
    pub date: YyDdd,
    /// The command file of the job that receives.
    pub receive: Vec<u8>,
    pub files: JobFiles,
}

/// A rehearsal of a package: its jobs ask about the SYSMODs that have this source, which they alone have.
#[derive(Drop)]
pub struct Prepared {
    pub source: Source,
    pub jobs: Rehearsal,
}

/// The system of a rehearsal. It is kept in memory and gone afterwards.
#[derive(Drop)]
pub enum System {
    /// An empty one, with zones of this SREL.
    Empty(Srel),
    /// A copy of a database, and the zone in question.
    Copied {
        bytes: DatabaseBytes,
        zone: ZoneName,
    },
}
