// The theorems on narrowing, each the contract of a function of its own.
ghost use Rattle.std.specs.Prelude.{◌≡◌, List, length};
ghost use Rattle.plans.specs.Plans.{Window};
ghost use Rattle.narrowing.specs.Laws.{NarrowedEnds, PlansStay, NarrowedTwice, RestStays};

use records::Record;

// Each end of a narrowed window is the day of its place in some plan, and no plan gives the place a day outside.
pub fn narrowed_ends()
    ensures { NarrowedEnds }
{}

// Narrowing loses no plan and makes none.
pub fn plans_stay()
    ensures { PlansStay }
{}

// Narrowing twice changes nothing the second time.
pub fn narrowed_twice()
    ensures { NarrowedTwice }
{}

// Putting records into windows changes nothing else of them.
pub fn rest_stays<R: Record>()
    ensures { (rs : List R) (ws : List Window) → length ws ≡ length rs → RestStays R.span R.put rs ws }
{}
