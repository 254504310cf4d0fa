//! The one list that RESTORE must have.
ghost use Rattle.std.specs.Prelude.{◌≡◌, List};
ghost use Rattle.terms.specs.Statement.{Piece};
ghost use Rattle.terms.specs.Commands.{is_unchosen};
ghost use Rattle.rec80.specs.Read.{IsRead};

use rec80::Operands;
use terms::CommandWord;

/// Whether the command is a RESTORE with both SELECT and GROUP, or with neither.
pub fn lacks_single_list(word: CommandWord, operands: &Operands<'_>) -> bool
    ensures { (pieces : List Piece) → IsRead pieces operands.now → result ≡ is_unchosen word pieces }
{
    let CommandWord::Restore = word else {
        return false;
    };
    operands.has_word(b"SELECT") == operands.has_word(b"GROUP")
}
