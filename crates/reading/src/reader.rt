ghost use Rattle.std.specs.Prelude.{◌≡◌, ◌+◌, ◌≤◌, length, drop, is_some, IfSome, ⊤, if◌then◌else◌};
ghost use Rattle.std.specs.Iterator.{YieldsFirstRef, MakesProgress, item_count};
ghost use Rattle.reading.specs.Pieces.{lines, line_end, PartAt};

use crate::cut::piece;

// The lines of a sheet, from one place on; `count` were handed out before it.
#[derive(Clone, Copy)]
pub struct Lines<'a> {
    sheet: &'a [u8],
    place: usize,
    count: usize,
    ghost counted: { count ≤ place },
    // the lines handed out and those left are all of the sheet's
    ghost all: { count + length (lines (drop place sheet.now)) ≡ length (lines sheet.now) },
}

impl<'a> Lines<'a> {
    // The lines of a sheet from its beginning.
    pub fn new(sheet: &'a [u8]) -> Lines<'a>
        ensures sheet { result.sheet ≡ sheet.entry }
        ensures place { result.place ≡ 0 }
        ensures count { result.count ≡ 0 }
    {
        Lines {
            sheet,
            place: 0,
            count: 0,
        }
    }

    // How many lines were handed out: the number of the line that came last.
    pub fn number(&self) -> usize
        ensures { result ≡ self.now.count }
    {
        self.count
    }
}

impl<'a> Iterator for Lines<'a> {
    ghost use Rattle.reading.specs.Told.{lines_left};

    type Item = &'a [u8];

    ghost next_gives = { YieldsFirstRef lines_left };

    ghost remaining = { item_count lines_left };

    // The next line, as that very part of the sheet; none once the sheet is read.
    fn next(&mut self) -> Option<&'a [u8]>
        ensures steps { YieldsFirstRef lines_left self.old result self.new }
        ensures goes { MakesProgress (λ _. ⊤) (item_count lines_left) self.old result self.new }
        ensures sheet { self.new.sheet ≡ self.old.sheet }
        ensures place { self.new.place ≡ line_end self.old.sheet.now self.old.place }
        ensures part { IfSome result (λ l. PartAt self.old.sheet self.old.place l) }
        ensures count { self.new.count ≡ self.old.count + (if is_some result then 1 else 0) }
    {
        if self.place >= self.sheet.len() {
            return None;
        }
        let line = piece(self.sheet, self.place, b'\n');
        self.place += line.len() + 1;
        self.count += 1;
        Some(line)
    }
}
