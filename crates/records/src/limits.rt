// The most days of a range.
pub const MOST_DAYS: usize = 128;

// The last day of all.
pub const LAST_DAY: usize = 65535;

// The most records.
pub const MOST_RECORDS: usize = 512;

// A cell for each first and last day.
pub const CELLS: usize = MOST_DAYS * MOST_DAYS;

// A place before each day, and one after the last.
pub const EDGES: usize = MOST_DAYS + 1;
