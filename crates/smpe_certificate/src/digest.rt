//! The digest of a file that was read.
ghost use Rattle.std.specs.Prelude.{◌≡◌, ◌++◌, codes};
ghost use Rattle.smpe_certificate.specs.Facts.{input_of};
ghost use Rattle.smpe_certificate.specs.Views.{digest_view};

use sha2::{Digest as _, Sha256};

/// A file that was read, by its name, with the SHA-256 of its bytes.
#[derive(Drop)]
pub struct Digest<'a> {
    pub name: &'a str,
    /// What follows the name: `-wal` if this is the log of the database of that name, otherwise nothing.
    pub suffix: &'static str,
    pub sha256: [u8; 32],
}

impl<'a> Digest<'a> {
    /// The digest of a file of this name with these bytes.
    pub fn of(name: &'a str, bytes: &[u8]) -> Digest<'a>
        ensures { digest_view result ≡ input_of name.now bytes.now }
    {
        Digest {
            name,
            suffix: "",
            sha256: Sha256::digest(bytes),
        }
    }

    /// The digest of the log of the database of this name. The log has these bytes.
    pub fn of_log(name: &'a str, bytes: &[u8]) -> Digest<'a>
        ensures { digest_view result ≡ input_of (name.now ++ codes "-wal") bytes.now }
    {
        Digest {
            name,
            suffix: "-wal",
            sha256: Sha256::digest(bytes),
        }
    }
}
