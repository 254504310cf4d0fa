//! Comparing what is printed.

use std::test::Fail;

/// The lines of two texts that differ. A text that has ended has none.
#[derive(Clone, Copy)]
pub struct Difference<'a> {
    /// The number of the line, counted from 1.
    pub number: usize,
    pub got: Option<&'a str>,
    pub wanted: Option<&'a str>,
}

/// The first line in which two texts differ.
pub fn first_difference<'a>(got: &'a str, wanted: &'a str) -> Difference<'a> {
    let mut number: usize = 1;
    let mut wanted_lines = wanted.split('\n');
    for line in got.split('\n') {
        let other = wanted_lines.next();
        if other != Some(line) {
            return Difference {
                number,
                got: Some(line),
                wanted: other,
            };
        }
        number = number.saturating_add(1);
    }
    Difference {
        number,
        got: None,
        wanted: wanted_lines.next(),
    }
}

/// Checks that the two texts are equal. If not, the failure has this name and the first lines that differ.
pub fn compare(name: &str, got: &[u8], wanted: &str) -> Result<(), Fail> {
    if got == wanted.as_bytes() {
        return Ok(());
    }
    let got = std::str::from_utf8(got)?;
    let Difference {
        number,
        got,
        wanted,
    } = first_difference(got, wanted);
    Err(Fail::new(format_args!("{name}: line {number}: got {got:?}, wanted {wanted:?}")))
}
