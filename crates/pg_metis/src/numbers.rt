//! Words that should be numbers.

ghost use Rattle.std.specs.Prelude.{◌≡◌, true, Some, OnOk, IfOk, IfErr};
ghost use Rattle.pg_text.specs.Text.{decimal_value, is_number};
ghost use Rattle.pg_metis.specs.Fault.{number_fault};

use crate::Kind;
use pg_text::number;

/// The number that a word is. `BadNumber` comes exactly where it is none.
pub(crate) fn number_of(word: &[u8]) -> Result<u32, Kind>
    ensures ok { OnOk result (is_number word.now ≡ true) }
    ensures value { IfOk result (λ value. value ≡ decimal_value word.now) }
    ensures refused { IfErr result (λ kind. number_fault word.now ≡ Some kind) }
{
    let Some(value) = number(word) else {
        return Err(Kind::BadNumber);
    };
    Ok(value as u32)
}
