ghost use Rattle.std.specs.Prelude.{◌≡◌, ◌≤◌, true, length, IfOk};
ghost use Rattle.reading.specs.Results.{map_ok};
ghost use Rattle.reading.specs.Told.{fields_left, numbers_of};
ghost use Rattle.reading.specs.Words.{headed, values, fits, fitting};

use crate::words::{Count, Field, Fields, LINE_BYTES, Unfit, heading};
use lists::Front;

// The numbers of a line.
pub type Numbers = Front<LINE_BYTES>;

// The numbers of the fields that are left, or the column of the first field that is none.
fn numbers(fields: Fields) -> Result<Numbers, Unfit>
    requires { length (fields_left fields) ≤ 200 }
    ensures value { map_ok numbers_of result ≡ values (fields_left fields.entry) }
    ensures count { IfOk result (λ n. length (numbers_of n) ≡ length (fields_left fields.entry)) }
{
    let mut numbers = Numbers::new();
    for field in fields {
        match field {
            Field::Number { number, .. } => numbers.push(number).unwrap(),
            Field::Letter { column, .. } | Field::Bad { column, .. } => {
                return Err(Unfit::BadField(column));
            }
        }
    }
    Ok(numbers)
}

// The numbers of a line that has the wanted letter first and the wanted count of fields after it.
pub fn line_numbers(line: &[u8], wanted: u8, count: Count) -> Result<Numbers, Unfit>
    ensures value { map_ok numbers_of result ≡ fitting wanted (fits count) (headed line.now) }
    ensures count { IfOk result (λ n. fits count (length (numbers_of n)) ≡ true) }
    ensures few { IfOk result (λ n. length (numbers_of n) ≤ 200) }
{
    let (letter, fields) = heading(line).ok_or(Unfit::BadLine)?;
    if letter != wanted || !count.allows(fields.left()) {
        return Err(Unfit::BadLine);
    }
    numbers(fields)
}
