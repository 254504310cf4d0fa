//! Why a related zone is refused.
use smpe_hints::CommandLine;
use std::alloc::{AllocError, Global};

/// What a database knows of the zone that `--related` names.
#[derive(Drop)]
pub enum RelatedZone {
    /// It could not be asked.
    Unknown,
    /// No zone has this name.
    Missing,
    Target,
    /// A distribution zone that has no target zone yet.
    Free,
    /// A distribution zone, with its target zone.
    Taken(String),
}

/// The name of the related zone; `None` if these words name none.
pub fn related_name(words: &[Vec<u8>]) -> Option<&str> {
    CommandLine { words }.value("--related")
}

/// Why the related zone of a zone was refused, as the command line and the database show.
pub(crate) fn related_hint(
    alloc: Global,
    line: CommandLine<'_>,
    related: &RelatedZone,
) -> Result<String, AllocError> {
    let Some(name) = line.value("--related") else {
        return String::from_str(
            alloc,
            "--related is missing: a target zone names its distribution zone",
        );
    };
    if line.value("--kind") != Some("target") {
        return format!(in alloc;
            "--related {name} is for a target zone, and a distribution zone has none"
        );
    }
    if name == "GLOBAL" {
        return String::from_str(
            alloc,
            "--related GLOBAL is the global zone; a target zone needs a distribution zone",
        );
    }
    unsuited_zone_hint(alloc, name, related)
}

// Why a zone of this name cannot be the related zone of a target zone.
fn unsuited_zone_hint(
    alloc: Global,
    name: &str,
    related: &RelatedZone,
) -> Result<String, AllocError> {
    match related {
        RelatedZone::Missing => format!(in alloc;
            "--related {name} is not defined in this database; define the distribution zone first"
        ),
        RelatedZone::Target => format!(in alloc;
            "--related {name} is a target zone; a target zone needs a distribution zone"
        ),
        RelatedZone::Taken(target) => {
            let target = target.as_str();
            format!(in alloc;
                "--related {name} belongs to the target zone {target}; each target zone needs one of its own"
            )
        }
        RelatedZone::Free | RelatedZone::Unknown => format!(in alloc;
            "--related {name} is no distribution zone of this database, or has a target zone already"
        ),
    }
}
