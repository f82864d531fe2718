// The first plan of windows: from the front on, each place is closed to its first day, and all are narrowed again. The first day and the
// pairs go side by side, as `narrow` takes them.
ghost use Rattle.std.specs.Prelude.{◌≡◌, suc, ◌<◌, ◌≤◌, map, length, Ok};
ghost use Rattle.std.specs.Option.{option_map};
ghost use Rattle.plans.specs.Narrowing.{first_plan};
ghost use Rattle.records.specs.Bare.{span_of};
ghost use Rattle.records.specs.Checks.{checked};
ghost use Rattle.lists.specs.Fronts.{items};
ghost use Rattle.planning.specs.Closed.{Closed, first_of};

use crate::Days;
use narrowing::narrow;
use records::Window;
use records::limits::MOST_DAYS;

// Closes a place to its first day and narrows again, unless it has one day only.
fn close(first: u16, pairs: &[(u16, u16)], windows: &mut [Window], place: usize)
    requires place_in_bounds { place < length windows.old }
    requires closed_before { Closed first pairs.now place (map span_of windows.old) }
    ensures closed { Closed first pairs.now (suc place) (map span_of windows.new) }
    ensures plan { first_plan first pairs.now (map span_of windows.new) ≡ first_plan first pairs.now (map span_of windows.old) }
{
    if windows[place].first == windows[place].last {
        return;
    }
    let day = windows[place].first;
    windows[place] = Window {
        first: day,
        last: day,
    };
    let mut marks = [0u8; MOST_DAYS];
    // Some plan has this day at the place, so there is no refusal.
    narrow(first, pairs, windows, &mut marks).unwrap();
}

// The first day of each window.
fn first_days(windows: &[Window]) -> Days
    requires { length windows.now ≤ 512 }
    ensures { items result ≡ map first_of windows.now }
{
    let mut days = Days::new();
    for window in windows {
        days.push(window.first).unwrap();
    }
    days
}

// The first plan of windows that have passed the checks.
pub fn plan_windows(first: u16, pairs: &[(u16, u16)], windows: &mut [Window]) -> Option<Days>
    requires { checked first pairs.now (map span_of windows.old) (length pairs.now) ≡ Ok tt }
    ensures { option_map items result ≡ first_plan first pairs.now (map span_of windows.old) }
{
    let mut marks = [0u8; MOST_DAYS];
    narrow(first, pairs, windows, &mut marks).ok()?;
    // Each step narrows the whole list, so the places are counted.
    for place in 0..windows.len() {
        close(first, pairs, windows, place);
    }
    Some(first_days(windows))
}
