// The windows of the orders held, as the days pass: begun at today, narrowed, told and asked about.
ghost use Rattle.std.specs.Prelude.{◌≡◌, length, take};
ghost use Rattle.std.specs.Option.{option_map};
ghost use Rattle.plans.specs.Narrowing.{window as window_at};
ghost use Rattle.narrowing.specs.Verdict.{verdict_of, MarksAfter};
ghost use Rattle.narrowing.specs.Support.{support_of};
ghost use Rattle.planning.specs.Planned.{told_plan, planned_of};
ghost use Rattle.orders.specs.Lists.{place_in};
ghost use Rattle.orders.specs.Tables.{held_in, told_in, begun, told_after};

use super::Table;
use crate::listing;
use narrowing::SupportFault;
use planning::Days;
use records::limits::MOST_RECORDS;
use records::{NarrowingFault, Record, Window};

impl Table {
    // Tells each order its asked window, begun no earlier than today.
    pub fn begin_at(&mut self, today: u16)
        ensures held { held_in self.new ≡ held_in self.old }
        ensures told { told_in self.new ≡ begun today self.old }
    {
        let count = self.len;
        listing::begin_at(&mut self.orders[0..count], today);
    }

    // Tells each order the days that plans give it, from today on. Refused as the narrowing is, with the same marks; then
    // each order is told its asked window, begun no earlier than today.
    pub fn narrow(
        &mut self,
        today: u16,
        pairs: &[(u16, u16)],
        marks: &mut [u8],
    ) -> Result<(), NarrowingFault>
        ensures answer { result ≡ verdict_of today pairs.now (begun today self.old) (length marks.old) (take (length pairs.now) marks.new) }
        ensures marks { MarksAfter today pairs.now (begun today self.old) marks.old marks.new }
        ensures held { held_in self.new ≡ held_in self.old }
        ensures told { told_in self.new ≡ told_after result today pairs.now (begun today self.old) }
    {
        self.begin_at(today);
        let count = self.len;
        narrowing::narrow(today, pairs, &mut self.orders[0..count], marks)
    }

    // The window that the order under a number is told, if it is held.
    #[tactic(auto, using(crate::proofs::Tables::found_within))]
    pub fn told(&self, number: u16) -> Option<(u16, u16)>
        ensures { result ≡ option_map (window_at (told_in self.now)) (place_in number (held_in self.now)) }
    {
        let place = self.find(number)?;
        Some(self.orders[place].window())
    }

    // A copy in which each order is told its asked window, begun no earlier than today.
    fn begun_at(&self, today: u16) -> Table
        ensures { told_in result ≡ begun today self.now }
    {
        let mut begun = *self;
        begun.begin_at(today);
        begun
    }

    // Whether some plan from today on gives the order at a place a day. Today and the pairs, a place and a day are
    // given as the narrowing takes them.
    pub fn supports(
        &self,
        today: u16,
        pairs: &[(u16, u16)],
        place: usize,
        day: u16,
    ) -> Result<bool, SupportFault>
        ensures { result ≡ support_of today pairs.now (begun today self.now) place day 512 }
    {
        let begun = self.begun_at(today);
        let mut work = [Window { first: 0, last: 0 }; MOST_RECORDS];
        narrowing::supports(today, pairs, begun.as_slice(), place, day, &mut work)
    }

    // The first plan from today on: a day for each order; none where there is no plan.
    pub fn plan(&self, today: u16, pairs: &[(u16, u16)]) -> Result<Option<Days>, NarrowingFault>
        ensures { told_plan result ≡ planned_of today pairs.now (begun today self.now) }
    {
        let begun = self.begun_at(today);
        planning::first_plan(today, pairs, begun.as_slice())
    }
}
