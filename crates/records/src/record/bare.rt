ghost use Rattle.std.specs.Prelude.{◌≡◌, map};
ghost use Rattle.std.proofs.Common.{rules};
ghost use Rattle.records.specs.Bare.{span_of, put_in, bare, copied};

use crate::record::Record;

// A bare window: it has its first and its last day and the days between, and nothing else.
#[derive(Clone, Copy, PartialEq, Eq, Debug, Default)]
pub struct Window {
    pub first: u16,
    pub last: u16,
}

impl Record for Window {
    ghost span = { span_of };

    ghost put = { put_in };

    ghost tells = { Prim.search rules };

    ghost again = { Prim.search rules };

    ghost same = { Prim.search rules };

    fn window(&self) -> (u16, u16) {
        (self.first, self.last)
    }

    fn set_window(&mut self, first: u16, last: u16) {
        if first <= last {
            self.first = first;
            self.last = last;
        }
    }
}

impl From<(u16, u16)> for Window {
    ghost from_gives = { λ window r. r ≡ bare window };

    fn from((first, last): (u16, u16)) -> Window {
        Window { first, last }
    }
}

// Copies the windows of records to the front of a list, as many as it has room for. Its later entries stay.
pub fn copy_windows<R: Record>(records: &[R], windows: &mut [Window])
    ensures { windows.new ≡ copied (map R.span records.now) windows.old }
{
    // Beside each other and not zipped: of what is written through a zip with iter_mut a proof knows only the length.
    let mut rest = records.iter();
    for window in windows.iter_mut() {
        let Some(each) = rest.next() else {
            return;
        };
        *window = each.window().into();
    }
}
