//! A walk over a list, byte by byte, that looks for a name among the runs of word characters outside inner lists.
ghost use Rattle.std.specs.Prelude.{◌≡◌, ◌≢◌, ◌==◌, ◌<◌, ◌++◌, ◌∷◌, [], ℕ, List, true, false, length};
ghost use Rattle.terms.specs.Forms.{is_word_byte};
ghost use Rattle.cntl.specs.Walks.{IsAt, is_inner, WalksOn};

use rec80::is_part_of_word;

/// The state of the walk: how far the run up to here agrees with the name.
#[derive(Clone, Copy)]
pub enum RunState<'n> {
    /// Inside an inner list.
    Inner,
    /// In a run that is a beginning of the name, which continues with these bytes.
    Part(&'n [u8]),
    /// In a run that is no beginning of the name.
    Other,
}

// The state after a character of a word, in a run that is a beginning of the name. `left` is the rest of the name.
fn step_in_name<'n>(left: &'n [u8], byte: u8) -> RunState<'n>
    ensures at { (name run : List ℕ) → run ++ left.now ≡ name → IsAt name result (run ++ byte ∷ []) }
    ensures outer { is_inner result ≡ false }
{
    let Some((first, rest)) = left.split_first() else {
        return RunState::Other;
    };
    if *first == byte {
        RunState::Part(rest)
    } else {
        RunState::Other
    }
}

// The state after a character that belongs to no word. An inner list begins with it, or the next run may begin after
// it.
fn start_run<'n>(byte: u8, name: &'n [u8]) -> RunState<'n>
    ensures at { IsAt name.now result [] }
    ensures inner { is_inner result ≡ (byte == 40) }
{
    if byte == b'(' {
        RunState::Inner
    } else {
        RunState::Part(name)
    }
}

impl<'n> RunState<'n> {
    /// The state after the byte, if the run up to here is not the name or continues with the byte.
    pub fn after(&self, byte: u8, name: &'n [u8]) -> RunState<'n>
        ensures { (run : List ℕ) → 0 < length name.now → IsAt name.now self.now run
            → (run ≡ name.now → is_word_byte byte ≡ true) → WalksOn name.now self.now run byte result }
    {
        match self {
            RunState::Inner => {
                if byte == b')' {
                    RunState::Part(name)
                } else {
                    RunState::Inner
                }
            }
            RunState::Part(left) => {
                if is_part_of_word(byte) {
                    step_in_name(left, byte)
                } else {
                    start_run(byte, name)
                }
            }
            RunState::Other => {
                if is_part_of_word(byte) {
                    RunState::Other
                } else {
                    start_run(byte, name)
                }
            }
        }
    }

    /// Whether the run up to here is the name.
    pub fn is_name(&self) -> bool
        ensures whole { result ≡ true → (name run : List ℕ) → IsAt name self.now run → run ≡ name }
        ensures outer { result ≡ true → is_inner self.now ≡ false }
        ensures part { result ≡ false → (name run : List ℕ) → 0 < length name → IsAt name self.now run → run ≢ name }
    {
        match self {
            RunState::Part(left) => left.is_empty(),
            RunState::Inner => false,
            RunState::Other => false,
        }
    }

    /// Whether the run up to here is the name, and ends before the byte.
    pub fn ends_before(&self, byte: u8) -> bool
        ensures whole { result ≡ true → (name run : List ℕ) → IsAt name self.now run → run ≡ name }
        ensures outer { result ≡ true → is_inner self.now ≡ false }
        ensures stops { result ≡ true → is_word_byte byte ≡ false }
        ensures goes_on { result ≡ false → (name run : List ℕ) → 0 < length name → IsAt name self.now run → run ≡ name
            → is_word_byte byte ≡ true }
    {
        !is_part_of_word(byte) && self.is_name()
    }
}
