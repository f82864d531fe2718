// Reads the three lines that open a sheet from standard input, and prints the bakery's first 56 days.
#![tactic(auto)]

mod day;

use calendar::{Closing, Weekly};
use day::day_of;
use sheet::opening::{SHEET_BYTES, calendar_of};
use std::io::{BufReader, Read};

// The days that a book looks ahead.
const DAYS: u16 = 56;

fn print_days(rt: &HostRuntime, calendar: &Closing<Weekly>) -> anyhow::Result<()> {
    println!(rt; "day weekday fewest most closed")?;
    for n in 0..DAYS {
        let day = day_of(calendar, n);
        println!(rt; "{day}")?;
    }
    Ok(())
}

fn run(rt: &HostRuntime) -> anyhow::Result<()> {
    let mut sheet = Vec::new(rt.alloc());
    // one byte more than a sheet may have is enough to refuse it (a cast: there is no From from usize to u64)
    let mut input = BufReader::new(rt.alloc(), rt.stdin())?.take(SHEET_BYTES as u64 + 1);
    input.read_to_end(&mut sheet)?;
    match calendar_of(&sheet) {
        Ok(calendar) => print_days(rt, &calendar),
        Err(refusal) => {
            println!(rt; "{refusal}")?;
            Ok(())
        }
    }
}

fn main(rt: HostRuntime) -> anyhow::Result<()> {
    run(&rt)
}
