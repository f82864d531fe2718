// The support question: whether some plan gives a record a day.
ghost use Rattle.std.specs.Prelude.{◌≡◌, ℕ, ◌<◌, ◌≤◌, Bool, true, ◌↔◌, List, map, length, Ok, slice_set};
ghost use Rattle.plans.specs.Plans.{Plan};
ghost use Rattle.plans.specs.Needs.{Proper};
ghost use Rattle.plans.specs.Narrowing.{supported, Possible};
ghost use Rattle.records.specs.Bare.{span_of};
ghost use Rattle.narrowing.specs.Support.{support_number, support_place, support_layer, askable, support_of, work_after};
ghost use Rattle.narrowing.specs.declared.support.SupportFault.TheVariants.{Refused};

use crate::days::Days;
use crate::tables::Tables;
use records::{NarrowingFault, Record, Window, check, copy_windows};
use refusals::Fault;

// Why a question has no answer.
#[derive(Clone, Copy, PartialEq, Eq, Debug)]
pub enum SupportFault {
    // what is asked of the days, the pairs and the records is not met
    Refused(NarrowingFault),
    // no such place, a day that is none of the days, or a working list shorter than the records
    NoSuchQuestion,
}

impl Fault for SupportFault {
    ghost numbered = { support_number };

    ghost placed = { support_place };

    ghost lettered = { support_layer };

    fn number(self) -> u16 {
        match self {
            SupportFault::Refused(fault) => fault.number(),
            SupportFault::NoSuchQuestion => 14,
        }
    }

    fn place(self) -> Option<usize> {
        match self {
            SupportFault::Refused(fault) => fault.place(),
            SupportFault::NoSuchQuestion => None,
        }
    }

    fn layer(self) -> char {
        'K'
    }
}

impl From<NarrowingFault> for SupportFault {
    ghost from_gives = { λ fault r. r ≡ Refused fault };

    fn from(fault: NarrowingFault) -> SupportFault {
        SupportFault::Refused(fault)
    }
}

// A list of windows with one place closed to a day. At its end the place has its old window again.
struct Closed<'a> {
    windows: &'a mut [Window],
    place: usize,
    old: Window,
}

impl Drop for Closed<'_> {
    fn drop(self)
        requires { self.place < length self.windows.now }
        ensures { self.exit.0.now ≡ slice_set self.entry.windows.now self.entry.place self.entry.old }
    {
        self.windows[self.place] = self.old;
        let Closed {
            windows: _,
            place: _,
            old: _,
        } = self;
    }
}

impl Closed<'_> {
    // Whether there is a plan for the windows as they now are.
    fn has_plan(&self, days: &Days) -> bool
        requires windows_len_bound { length self.now.windows.now ≤ 512 }
        requires proper { Proper days.now.first days.now.pairs.now (map span_of self.now.windows.now) }
        ensures yes { result ≡ true → (ts : List ℕ) × Plan days.now.first days.now.pairs.now (map span_of self.entry.now.windows.now) ts }
        ensures no { (ts : List ℕ) → Plan days.now.first days.now.pairs.now (map span_of self.entry.now.windows.now) ts → result ≡ true }
    {
        let mut tables = Tables::blank();
        tables.weigh(days, &*self.windows).is_ok()
    }
}

// Whether some plan gives the window at a place a day: one does if it is a day of the window, and there is a plan with the
// window closed to it.
fn possible(days: &Days, windows: &mut [Window], place: usize, day: u16) -> bool
    requires windows_len_bound { length windows.old ≤ 512 }
    requires proper { Proper days.now.first days.now.pairs.now (map span_of windows.old) }
    requires place_in_bounds { place < length windows.old }
    ensures answer { result ≡ supported days.now.first days.now.pairs.now (map span_of windows.old) place day }
    ensures same { windows.new ≡ windows.old }
{
    let old = windows[place];
    if day < old.first || old.last < day {
        return false;
    }
    let guard = Closed {
        windows,
        place,
        old,
    };
    guard.windows[place] = Window {
        first: day,
        last: day,
    };
    guard.has_plan(days)
}

// Whether the place is one of the records, the day one of the days (a comparison as short as a call of the window's check), and the
// working list long enough.
fn is_askable(
    first: u16,
    days: usize,
    records: usize,
    place: usize,
    day: u16,
    entries: usize,
) -> bool
    ensures { result ≡ askable first days records place day entries }
{
    place < records && first <= day && ((day - first) as usize) < days && records <= entries
}

// Whether some plan gives the record at a place the day. By the rules the working list is the caller's: the windows of the records are
// copied to its front, and its later entries stay; a refusal leaves all of it as it was.
pub fn supports<R: Record>(
    first: u16,
    pairs: &[(u16, u16)],
    records: &[R],
    place: usize,
    day: u16,
    work: &mut [Window],
) -> Result<bool, SupportFault>
    ensures answer { result ≡ support_of first pairs.now (map R.span records.now) place day (length work.old) }
    ensures work { work.new ≡ work_after result (map R.span records.now) work.old }
    ensures means { (b : Bool) → result ≡ Ok b → (b ≡ true) ↔ Possible first pairs.now (map R.span records.now) place day }
{
    check(first, pairs, records, pairs.len())?;
    if !is_askable(first, pairs.len(), records.len(), place, day, work.len()) {
        return Err(SupportFault::NoSuchQuestion);
    }
    copy_windows(records, work);
    let days = Days { first, pairs };
    Ok(possible(&days, &mut work[..records.len()], place, day))
}
