use crate::problems::{Problem, SIZE};
use records::NarrowingFault;
use std::ops::RangeInclusive;

// The three kinds of reply to a problem that passes the checks, the worst first.
#[derive(Clone, Copy, PartialEq, Eq, PartialOrd, Ord, Debug)]
pub enum Reply {
    Overfull,
    Short,
    Accepted,
}

// The windows that a set of days has, and the sum of its mosts or fewests.
#[derive(Clone, Copy, PartialEq, Eq)]
struct Counts {
    windows: usize,
    sum: u32,
}

// How many assignments there are.
const ASSIGNMENTS: u16 = 27;

// The day that an assignment, a number of three digits 0 to 2, gives each place.
fn assignment(number: u16) -> [u16; SIZE] {
    [number % 3, number / 3 % 3, number / 9 % 3]
}

// The kind of reply if there were only a day with this fewest and most, and so many records.
fn shown_by((fewest, most): (u16, u16), load: usize) -> Reply {
    if load > usize::from(most) {
        Reply::Overfull
    } else if load < usize::from(fewest) {
        Reply::Short
    } else {
        Reply::Accepted
    }
}

// Whether a day is marked.
fn is_marked(marks: &[u8], day: usize) -> bool {
    marks.get(day) == Some(&1)
}

impl Problem {
    // Whether an assignment gives each window its day.
    fn assigns(&self, days: &[u16]) -> bool {
        self.windows
            .iter()
            .zip(days.iter())
            .all(|((first, last), day)| first <= day && day <= last)
    }

    // How many records an assignment gives a day.
    fn load(&self, days: &[u16], day: usize) -> usize {
        days.iter()
            .take(self.windows.len())
            .filter(|each| usize::from(**each) == day)
            .count()
    }

    // The kind of reply if there were no other assignment: the worst of any day, where each window has its day.
    fn shows(&self, days: &[u16]) -> Reply {
        if !self.assigns(days) {
            return Reply::Overfull;
        }
        self.pairs
            .iter()
            .enumerate()
            .map(|(day, pair)| shown_by(*pair, self.load(days, day)))
            .min()
            .unwrap_or(Reply::Accepted)
    }

    // The kind of reply: the best that any assignment shows, by trying every one.
    pub fn sought(&self) -> Reply {
        (0..ASSIGNMENTS)
            .map(|number| self.shows(&assignment(number)))
            .max()
            .unwrap_or(Reply::Overfull)
    }

    // The windows inside a run of days, and the sum of its mosts.
    fn inside(&self, run: &RangeInclusive<usize>) -> Counts {
        let windows = self.windows.iter().filter(|(first, last)| {
            run.contains(&usize::from(*first)) && run.contains(&usize::from(*last))
        });
        let mosts = self
            .pairs
            .iter()
            .enumerate()
            .filter(|(day, _)| run.contains(day));
        Counts {
            windows: windows.count(),
            sum: mosts.fold(
                0u32,
                |sum, (_, (_, most))| sum.saturating_add(u32::from(*most)),
            ),
        }
    }

    // Whether more windows lie inside a run of days than its mosts allow.
    fn is_overfull(&self, run: &RangeInclusive<usize>) -> bool {
        let Counts { windows, sum } = self.inside(run);
        windows > sum as usize
    }

    // The first overfull run that ends with a day, from the largest first day back.
    fn overfull_to(&self, last: usize) -> Option<RangeInclusive<usize>> {
        (0..=last)
            .rev()
            .map(|first| first..=last)
            .find(|run| self.is_overfull(run))
    }

    // The first overfull run by its last day and then from the largest first day back.
    fn first_overfull(&self) -> Option<RangeInclusive<usize>> {
        (0..self.pairs.len()).find_map(|last| self.overfull_to(last))
    }

    // Whether the marks are those of a run of days.
    fn marks_run(&self, marks: &[u8], run: &RangeInclusive<usize>) -> bool {
        marks
            .iter()
            .take(self.pairs.len())
            .enumerate()
            .all(|(day, mark)| *mark == u8::from(run.contains(&day)))
    }

    // The windows that meet the marked days, and the sum of their fewests. Not one with `inside`: the windows are asked something
    // else, and the other half of each pair is summed.
    fn meeting(&self, marks: &[u8]) -> Counts {
        let windows = self.windows.iter().filter(|(first, last)| {
            (usize::from(*first)..=usize::from(*last)).any(|day| is_marked(marks, day))
        });
        let fewests = self
            .pairs
            .iter()
            .enumerate()
            .filter(|(day, _)| is_marked(marks, *day));
        Counts {
            windows: windows.count(),
            sum: fewests.fold(
                0u32,
                |sum, (_, (fewest, _))| sum.saturating_add(u32::from(*fewest)),
            ),
        }
    }

    // Whether the verdict's reply, with its marks and counts, is a right one.
    pub fn agrees(&self, reply: Result<(), NarrowingFault>, marks: &[u8]) -> bool {
        match (reply, self.sought()) {
            (Ok(()), Reply::Accepted) => true,
            (Err(NarrowingFault::Overfull { windows, mosts }), Reply::Overfull) => {
                let counts = Counts {
                    windows: usize::from(windows),
                    sum: mosts,
                };
                self.first_overfull().is_some_and(|run| self.inside(&run) == counts
                    && self.marks_run(marks, &run))
            }
            (Err(NarrowingFault::Short { windows, fewests }), Reply::Short) => {
                let counts = Counts {
                    windows: usize::from(windows),
                    sum: fewests,
                };
                self.meeting(marks) == counts && u32::from(windows) < fewests
            }
            _ => false,
        }
    }

    // Whether some plan gives a place a day.
    pub fn possible(&self, place: usize, day: u16) -> bool {
        (0..ASSIGNMENTS).map(assignment).any(|days| days.get(place) == Some(&day)
            && self.shows(&days) == Reply::Accepted)
    }

    // The smallest and the largest day of a place in any plan.
    pub fn ends(&self, place: usize) -> Option<(u16, u16)> {
        let low = (0..SIZE as u16).find(|day| self.possible(place, *day))?;
        let high = (0..SIZE as u16)
            .rev()
            .find(|day| self.possible(place, *day))?;
        Some((low, high))
    }
}
