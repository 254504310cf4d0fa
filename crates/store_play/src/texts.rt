//! Comparing texts line by line.

use std::test::Fail;

/// The first line in which two texts differ, of each text. After the end of one there is no line.
pub fn first_difference<'a>(got: &'a str, wanted: &'a str) -> (Option<&'a str>, Option<&'a str>) {
    let mut wanted_lines = wanted.split('\n');
    for line in got.split('\n') {
        let other = wanted_lines.next();
        if other != Some(line) {
            return (Some(line), other);
        }
    }
    (None, wanted_lines.next())
}

/// A failure with this name and the first lines that differ, if the two texts differ.
pub fn compare(name: &str, got: &str, wanted: &str) -> Result<(), Fail> {
    if got == wanted {
        return Ok(());
    }
    let (got, wanted) = first_difference(got, wanted);
    Err(Fail::new(format_args!("{name}: got {got:?}, wanted {wanted:?}")))
}
