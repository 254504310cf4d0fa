//! Operands and members of BYPASS that occur twice in a command, whatever else is wrong with it.
ghost use Rattle.std.specs.Prelude.{◌≡◌, List};
ghost use Rattle.terms.specs.Statement.{Piece};
ghost use Rattle.terms.specs.Commands.{has_double};
ghost use Rattle.rec80.specs.Read.{IsRead};

use crate::runs::any_occurs_twice;
use crate::tables::{members_of, operands_of};
use rec80::Operands;
use terms::CommandWord;

/// Whether a known operand of the command occurs twice, or a member that its BYPASS may have.
pub fn has_double(word: CommandWord, operands: &Operands<'_>) -> bool
    ensures { (pieces : List Piece) → IsRead pieces operands.now
        → result ≡ has_double word pieces }
{
    if operands.has_twice(operands_of(word)) {
        return true;
    }
    match operands.list_after(b"BYPASS") {
        Some(list) => any_occurs_twice(&list, members_of(word)),
        None => false,
    }
}
