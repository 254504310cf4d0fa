//! Runs of word characters in a list, outside of inner lists.
ghost use Rattle.std.specs.Prelude.{◌≡◌, ◌<◌, ◌+◌, [], All, false, length, IfSome, IfNone};
ghost use Rattle.std.specs.List.{list_any};
ghost use Rattle.terms.specs.Commands.{runs_from};
ghost use Rattle.terms.specs.Operands.{is_often};
ghost use Rattle.terms.proofs.OperandWords.{count};
ghost use Rattle.rec80.specs.Cursors.{text_of};

use crate::run_state::RunState;
use rec80::Text;

// The text after the first run that is the name.
fn skip_past_name<'a>(list: &Text<'a>, name: &[u8]) -> Option<Text<'a>>
    ensures found { IfSome result (λ after. 0 < length name.now → count name.now (runs_from false [] (text_of list.now))
        ≡ 1 + count name.now (runs_from false [] (text_of after))) }
    ensures none { IfNone result (0 < length name.now
        → count name.now (runs_from false [] (text_of list.now)) ≡ 0) }
{
    let mut rest = *list;
    let mut state = RunState::Part(name);
    while let Some((byte, next)) = rest.next_byte() {
        if state.ends_before(byte) {
            return Some(rest);
        }
        state = state.after(byte, name);
        rest = next;
    }
    if state.is_name() { Some(rest) } else { None }
}

// Whether the name occurs at least twice among the runs.
fn occurs_twice(list: &Text<'_>, name: &[u8]) -> bool
    ensures { 0 < length name.now → result ≡ is_often 2 (runs_from false [] (text_of list.now)) name.now }
{
    let Some(after) = skip_past_name(list, name) else {
        return false;
    };
    skip_past_name(&after, name).is_some()
}

/// Whether one of the names occurs at least twice among the runs. The names must not be empty.
pub fn any_occurs_twice(list: &Text<'_>, names: &[&[u8]]) -> bool
    ensures { All (λ name. 0 < length name.now) names.now
        → result ≡ list_any (λ name. is_often 2 (runs_from false [] (text_of list.now)) name.now) names.now }
{
    for name in names {
        if occurs_twice(list, name) {
            return true;
        }
    }
    false
}
