ghost use Rattle.std.specs.Prelude.{◌≡◌, ℕ, ◌+◌, ◌-◌, ◌≤◌, List, length, IfSome, ⊤};
ghost use Rattle.std.specs.Borrow.{Bor};
ghost use Rattle.std.specs.Iterator.{YieldsFirstBy, MakesProgress, item_count};
ghost use Rattle.std.specs.Option.{option_map};
ghost use Rattle.reading.specs.Pieces.{parts, PartAt};
ghost use Rattle.reading.specs.Told.{told, fields_left, Borrows};
ghost use Rattle.reading.specs.Words.{letter_of, word, words, headed, fits};

use crate::cut::piece;
use crate::decimal::number;

// The most bytes of a line that is read, and so the most fields after its letter.
pub const LINE_BYTES: usize = 200;

// A part of a line between spaces, with the column where it begins, counted from 1.
#[derive(Clone, Copy)]
pub enum Field<'a> {
    Letter { column: usize, letter: u8 },
    Number { column: usize, number: u16 },
    Bad { column: usize, bytes: &'a [u8] },
}

// The fields of a line, from one place on.
#[derive(Clone, Copy)]
pub struct Fields<'a> {
    line: &'a [u8],
    place: usize,
}

// Why the numbers of a line are not read.
#[derive(Clone, Copy, PartialEq, Eq, Debug)]
pub enum Unfit {
    // more than 200 bytes, another letter first, or another number of fields
    BadLine,
    // the first field that is no number begins in this column
    BadField(usize),
}

// How many fields come after the letter.
#[derive(Clone, Copy)]
pub enum Count {
    Exactly(usize),
    Even,
}

impl Count {
    // Whether so many fields are right.
    pub fn allows(self, n: usize) -> bool
        ensures { result ≡ fits self n }
    {
        match self {
            Count::Exactly(count) => n == count,
            Count::Even => n % 2 == 0,
        }
    }
}

// The one letter from A to Z that the bytes are.
fn letter(bytes: &[u8]) -> Option<u8>
    ensures { result ≡ letter_of bytes.now }
{
    match bytes {
        [b] if b.is_ascii_uppercase() => Some(*b),
        _ => None,
    }
}

// The field that begins in a column: in the first a letter, in any later one a number.
fn read_field<'a>(column: usize, bytes: &'a [u8]) -> Field<'a>
    ensures value { told result ≡ word (column, bytes.now) }
    ensures part { (line : Bor (List ℕ)) → PartAt line (column - 1) bytes.entry → Borrows line result }
{
    if column == 1 {
        match letter(bytes) {
            Some(letter) => Field::Letter { column, letter },
            None => Field::Bad { column, bytes },
        }
    } else {
        match number(bytes) {
            Some(number) => Field::Number { column, number },
            None => Field::Bad { column, bytes },
        }
    }
}

// How many spaces the bytes have: one fewer than parts. (The fields that `next` gives would each be read to be counted.)
fn spaces(bytes: &[u8]) -> usize
    ensures { result + 1 ≡ length (parts bytes.now) }
{
    let mut n = 0;
    // A loop: a filter with its count takes twice the time.
    for b in bytes {
        if *b == b' ' {
            n += 1;
        }
    }
    n
}

impl<'a> Fields<'a> {
    // The fields of a line from its beginning.
    pub fn new(line: &'a [u8]) -> Fields<'a>
        ensures line { result.line ≡ line.entry }
        ensures left { fields_left result ≡ words line.now }
    {
        Fields { line, place: 0 }
    }

    // How many fields are left.
    pub fn left(&self) -> usize
        ensures { result ≡ length (fields_left self.now) }
    {
        if self.place > self.line.len() {
            return 0;
        }
        spaces(&self.line[self.place..]) + 1
    }
}

impl<'a> Iterator for Fields<'a> {
    type Item = Field<'a>;

    ghost next_gives = { YieldsFirstBy told fields_left };

    ghost remaining = { item_count fields_left };

    // The next field; none once the line is read.
    fn next(&mut self) -> Option<Field<'a>>
        ensures steps { YieldsFirstBy told fields_left self.old result self.new }
        ensures goes { MakesProgress (λ _. ⊤) (item_count fields_left) self.old result self.new }
        ensures line { self.new.line ≡ self.old.line }
        ensures part { IfSome result (λ f. Borrows self.old.line f) }
    {
        if self.place > self.line.len() {
            return None;
        }
        let bytes = piece(self.line, self.place, b' ');
        let column = self.place + 1;
        self.place = column + bytes.len();
        Some(read_field(column, bytes))
    }
}

// The letter of a line, and its later fields; none where the line has more than 200 bytes or begins with no letter.
pub fn heading<'a>(line: &'a [u8]) -> Option<(u8, Fields<'a>)>
    ensures value { option_map (λ h. (h.0, fields_left h.1)) result ≡ headed line.now }
    ensures few { IfSome result (λ h. length (fields_left h.1) ≤ 200) }
{
    if line.len() > LINE_BYTES {
        return None;
    }
    let mut fields = Fields::new(line);
    match fields.next()? {
        Field::Letter { letter, .. } => Some((letter, fields)),
        _ => None,
    }
}
