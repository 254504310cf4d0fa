//! The bytes of a file as its records.
ghost use Rattle.std.specs.Prelude.{ℕ, List, IfOk, IfErr, IsOk, IsTrue, ◌↔◌};
ghost use Rattle.terms.specs.Records.{HasRecords, IsPrintable, IsRecFault};
ghost use Rattle.rec80.specs.Faults.{rec_fault};

use crate::error::RecError;
use crate::record_files::Records;

// Whether a record may have the byte: a blank or a printable character.
fn is_printable(byte: u8) -> bool
    ensures { IsTrue result ↔ IsPrintable byte }
{
    (b' '..=b'~').contains(&byte)
}

/// The records of a file. Returns `BadByte` at the first whole record with a bad byte, or `ShortRecord` if there is no
/// such record but the file ends inside one.
pub fn records(bytes: &[u8]) -> Result<Records<'_>, RecError>
    ensures ok { IfOk result (λ found. HasRecords bytes.now found.all.now) }
    ensures good { (records : List (List ℕ)) → HasRecords bytes.now records → IsOk result }
    ensures fault { IfErr result (λ e. IsRecFault bytes.now (rec_fault e)) }
{
    let (all, rest) = bytes.as_chunks::<80>();
    for (i, byte) in all.as_flattened().iter().enumerate() {
        if !is_printable(*byte) {
            return Err(RecError::BadByte {
                record: i / 80 + 1,
                column: i % 80 + 1,
            });
        }
    }
    if !rest.is_empty() {
        return Err(RecError::ShortRecord {
            record: all.len() + 1,
        });
    }
    Ok(Records { all })
}
