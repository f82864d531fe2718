ghost use Rattle.std.specs.Prelude.{◌≡◌, ◌≤◌, length, drop, IfOk, Ok, codes};
ghost use Rattle.calendar.specs.Told.{week_of, runs_of, below_of};
ghost use Rattle.reading.specs.Results.{map_ok};
ghost use Rattle.reading.specs.Told.{lines_left};
ghost use Rattle.sheet.specs.Header.{version_of, mark_line, week_from, week_line, runs_from, runs_line, opened, header};
ghost use Rattle.sheet.specs.Told.{lines_read, asked_of};

use crate::fault::{Refusal, SheetFault};
use crate::pairing::pairs_of;
use calendar::{Closing, Weekly};
use reading::decimal::number;
use reading::{Count, Lines, line_numbers};

// The most bytes of a sheet.
pub const SHEET_BYTES: usize = 60000;

// The version after the mark `OVB` and a space.
pub fn version(line: &[u8]) -> Option<u16>
    ensures { result ≡ version_of line.now }
{
    let [b'O', b'V', b'B', b' ', rest @ ..] = line else {
        return None;
    };
    number(rest)
}

// Line 1: the mark and version 1.
pub fn mark(line: &[u8]) -> Result<(), SheetFault>
    ensures value { result ≡ mark_line line.now }
    ensures only { result ≡ Ok tt → line.now ≡ codes "OVB 1" }
    ensures always { line.now ≡ codes "OVB 1" → result ≡ Ok tt }
{
    match version(line) {
        Some(1) => Ok(()),
        _ => Err(SheetFault::NoMark),
    }
}

// Line 2: the letter W, the weekday of day 0 and the seven pairs.
pub fn week(line: &[u8]) -> Result<Weekly, SheetFault>
    ensures { map_ok week_of result ≡ week_line line.now }
{
    let numbers = line_numbers(line, b'W', Count::Exactly(15))?;
    week_of_numbers(numbers.as_slice())
}

// The week of fifteen numbers: the weekday of day 0 and the seven pairs.
fn week_of_numbers(numbers: &[u16]) -> Result<Weekly, SheetFault>
    requires { length numbers.now ≡ 15 }
    ensures { map_ok week_of result ≡ week_from numbers.now }
{
    let start = numbers[0];
    let pairs = pairs_of(&numbers[1..]);
    let rows = pairs.first_chunk().unwrap();
    Weekly::check(rows, start)?;
    Ok(Weekly::new(*rows, start))
}

// Line 3: the letter X and the closed runs, as a layer on the week.
pub fn closing(line: &[u8], week: Weekly) -> Result<Closing<Weekly>, SheetFault>
    ensures runs { map_ok runs_of result ≡ runs_line line.now }
    ensures week { IfOk result (λ c. below_of c ≡ week) }
{
    let numbers = line_numbers(line, b'X', Count::Even)?;
    let runs = pairs_of(numbers.as_slice());
    Closing::<Weekly>::check(&runs)?;
    Ok(Closing::new(week, &runs))
}

// Reads the next three lines as those that open a sheet. Each missing line is told where it is missing, by its own number.
pub fn open(lines: &mut Lines) -> Result<Closing<Weekly>, Refusal>
    ensures asked { map_ok asked_of result ≡ opened (lines_left lines.old) }
    ensures sheet { lines.new.sheet ≡ lines.old.sheet }
    ensures left { lines_left lines.new ≡ drop (lines_read result) (lines_left lines.old) }
{
    let Some(line) = lines.next() else {
        return Err(SheetFault::Missing(1).at(1));
    };
    mark(line).map_err(|fault| fault.at(1))?;
    let Some(line) = lines.next() else {
        return Err(SheetFault::Missing(2).at(2));
    };
    let week = week(line).map_err(|fault| fault.at(2))?;
    let Some(line) = lines.next() else {
        return Err(SheetFault::Missing(3).at(3));
    };
    closing(line, week).map_err(|fault| fault.at(3))
}

// The calendar that a sheet opens with.
pub fn calendar_of(sheet: &[u8]) -> Result<Closing<Weekly>, Refusal>
    ensures { map_ok asked_of result ≡ header sheet.now }
{
    if sheet.len() > SHEET_BYTES {
        return Err(SheetFault::TooLong.at(1));
    }
    let mut lines = Lines::new(sheet);
    open(&mut lines)
}
