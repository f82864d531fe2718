// The theorems on plans, each the contract of a function of its own.
#![tactic(auto)]

ghost use Rattle.plans.specs.Plans.{PlansListed};
ghost use Rattle.plans.specs.Runs.{RunNamed};
ghost use Rattle.plans.specs.Sets.{ShortageExcludes, RunsMarked};
ghost use Rattle.plans.specs.Needs.{NeedsExist, PlanExists, MostsKept, NeedShown, RunFound, ShortageFound};
ghost use Rattle.plans.specs.Replies.{ReplyMeans};
ghost use Rattle.plans.specs.Narrowing.{NarrowedMeans, SupportedMeans, PossibleClosed, FirstLeads, FirstStep, FirstSingle};
ghost use Rattle.plans.specs.Tight.{ReadyFromPlan, TightEndsExist, DayPossible, LowestSmallest, HighestLargest, NarrowedScanned};
ghost use Rattle.plans.specs.Worked.{WorkedCases};

// The two lists have exactly the assignments that keep the mosts and exactly the plans, each once, in ascending order.
pub fn plans_listed()
    ensures { PlansListed }
{}

// The overfull run that is found is the one with the smallest last day and, among those, the largest first day.
pub fn run_named()
    ensures { RunNamed }
{}

// A set that fewer windows meet than its days need excludes every plan.
pub fn shortage_excludes()
    ensures { ShortageExcludes }
{}

// The marks of a run have its days and the sum of its mosts.
pub fn runs_marked()
    ensures { RunsMarked }
{}

// The needs from the left and from the right exist.
pub fn needs_exist()
    ensures { NeedsExist }
{}

// A plan exists exactly when no run is overfull and the need from the left is within the number of windows.
pub fn plan_exists()
    ensures { PlanExists }
{}

// Some assignment keeps the mosts exactly when no run is overfull.
pub fn mosts_kept()
    ensures { MostsKept }
{}

// Where the need is too large, some set of days shows the shortage.
pub fn need_shown()
    ensures { NeedShown }
{}

// No assignment keeps the mosts exactly when a run is found, so 20 always has one to name.
pub fn run_found()
    ensures { RunFound }
{}

// Where some assignment keeps the mosts and there is no plan, 21 always has a set to mark.
pub fn shortage_found()
    ensures { ShortageFound }
{}

// The reply is the one whose meaning holds.
pub fn reply_means()
    ensures { ReplyMeans }
{}

// A narrowed window is from the smallest to the largest day of its place in any plan.
pub fn narrowed_means()
    ensures { NarrowedMeans }
{}

// A supported day is one that some plan gives the place.
pub fn supported_means()
    ensures { SupportedMeans }
{}

// Support asks whether there is a plan with the place closed to the day.
pub fn possible_closed()
    ensures { PossibleClosed }
{}

// The first plan comes before every other.
pub fn first_leads()
    ensures { FirstLeads }
{}

// The first plan is found place by place: a place is closed to its smallest day,
pub fn first_step()
    ensures { FirstStep }
{}

// and in the end all places are.
pub fn first_single()
    ensures { FirstSingle }
{}

// Where there is a plan, there are its two needs,
pub fn ready_from_plan()
    ensures { ReadyFromPlan }
{}

// and the earliest and the latest ends of tight runs.
pub fn tight_ends_exist()
    ensures { TightEndsExist }
{}

// A day is possible exactly when no tight run bars it.
pub fn day_possible()
    ensures { DayPossible }
{}

// The scan up finds the smallest day,
pub fn lowest_smallest()
    ensures { LowestSmallest }
{}

// the scan down the largest,
pub fn highest_largest()
    ensures { HighestLargest }
{}

// and the two are the narrowing.
pub fn narrowed_scanned()
    ensures { NarrowedScanned }
{}

// The worked cases, from the definitions by computation.
pub fn worked_cases()
    ensures { WorkedCases }
{}
