// Puts every small problem to the verdict, the narrowing and the support question, and compares with what is found by trying
// everything. Casts are written `as` where there is no From: from usize down, and from u32 to usize.
#![tactic(auto)]

mod problems;
mod search;

use narrowing::{narrow, supports, verdict};
use problems::{FAR, Problem, ROOM, SIZE, windows_in};
use records::Window;
use search::Reply;

// How many problems had each reply, how many questions were asked, and how many answers were wrong.
#[derive(Default)]
struct Tally {
    accepted: u32,
    overfull: u32,
    short: u32,
    asked: u32,
    wrong: u32,
}

impl Tally {
    // Counts a problem.
    fn note(&mut self, reply: Reply, right: bool) {
        match reply {
            Reply::Accepted => self.accepted = self.accepted.saturating_add(1),
            Reply::Overfull => self.overfull = self.overfull.saturating_add(1),
            Reply::Short => self.short = self.short.saturating_add(1),
        }
        self.wrong = self.wrong.saturating_add(u32::from(!right));
    }

    // Counts a question.
    fn question(&mut self, right: bool) {
        self.asked = self.asked.saturating_add(1);
        self.wrong = self.wrong.saturating_add(u32::from(!right));
    }
}

// A mark that no call writes.
const UNTOUCHED: u8 = 7;

// Whether the verdict on a problem is right, and leaves the marks that it has to leave.
fn judged(problem: &Problem) -> bool {
    let list = problem.working_list();
    let records = &list[..problem.windows.len()];
    let mut marks = [UNTOUCHED; ROOM];
    let reply = verdict(problem.first, &problem.pairs, records, &mut marks);
    let written = if reply.is_ok() {
        0
    } else {
        problem.pairs.len()
    };
    marks.iter().skip(written).all(|mark| *mark == UNTOUCHED) && problem.agrees(reply, &marks)
}

// The working list after the narrowing: a record has the smallest to the largest day of any plan, or its own where there is none.
fn expected(problem: &Problem) -> [Window; ROOM] {
    let mut list = problem.working_list();
    for (place, each) in list.iter_mut().take(problem.windows.len()).enumerate() {
        if let Some(ends) = problem.ends(place) {
            *each = problem.on_days(ends);
        }
    }
    list
}

// Whether the narrowing of a problem is right.
fn narrowed(problem: &Problem) -> bool {
    let mut list = problem.working_list();
    let records = &mut list[..problem.windows.len()];
    let mut marks = [UNTOUCHED; ROOM];
    let reply = narrow(problem.first, &problem.pairs, records, &mut marks);
    list == expected(problem) && problem.agrees(reply, &marks)
}

// Whether a question, a place and a day, is answered right, with the windows copied to the front of the working list.
fn answered(problem: &Problem, place: usize, day: u16) -> bool {
    let list = problem.working_list();
    let records = &list[..problem.windows.len()];
    let mut work = [FAR; ROOM];
    let reply = supports(
        problem.first,
        &problem.pairs,
        records,
        place,
        problem.day(day),
        &mut work,
    );
    work == list && reply == Ok(problem.possible(place, day))
}

// Puts every question of a problem.
fn ask_all(problem: &Problem, tally: &mut Tally) {
    for place in 0..problem.windows.len() {
        for day in 0..problem.pairs.len() as u16 {
            tally.question(answered(problem, place, day));
        }
    }
}

// Every problem of a size.
fn try_size(tally: &mut Tally, first: u16, days: u32, count: u32) {
    for pairs in 0..6usize.saturating_pow(days) {
        for windows in 0..windows_in(days).saturating_pow(count) {
            let problem = Problem::numbered(first, days, pairs, count, windows);
            tally.note(problem.sought(), judged(&problem) && narrowed(&problem));
            ask_all(&problem, tally);
        }
    }
}

fn run(rt: &HostRuntime) -> anyhow::Result<()> {
    let mut tally = Tally::default();
    for days in 1..=SIZE as u32 {
        for count in 0..=SIZE as u32 {
            try_size(&mut tally, 0, days, count);
            try_size(&mut tally, 65533, days, count);
        }
    }
    let Tally {
        accepted,
        overfull,
        short,
        asked,
        wrong,
    } = tally;
    println!(rt; "accepted {accepted}")?;
    println!(rt; "refused with 20 {overfull}")?;
    println!(rt; "refused with 21 {short}")?;
    println!(rt; "asked for support {asked}")?;
    println!(rt; "wrong {wrong}")?;
    Ok(())
}

fn main(rt: HostRuntime) -> anyhow::Result<()> {
    run(&rt)
}
