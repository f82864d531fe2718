// The ledger of a book: its theorems, each the contract of a function of its own.
#![tactic(auto)]

ghost use Rattle.ledger.specs.Law.{Law, LawGoesOn, OrderlyByCalls, KeptByCalls, MarksNoMatter, Answerable};
ghost use Rattle.ledger.specs.Worked.{WorkedCases};

// The law of a book over its whole history, whatever its calendar and its calls.
pub fn ledger_law()
    ensures { Law }
{}

// One more call leaves a lawful history lawful.
pub fn law_goes_on()
    ensures { LawGoesOn }
{}

// An accepted call leaves a ledger in order,
pub fn orderly_by_calls()
    ensures { OrderlyByCalls }
{}

// and with a plan, if it had one.
pub fn kept_by_calls()
    ensures { KeptByCalls }
{}

// Which set 21 marks does not alter whether a call is refused, nor with which number.
pub fn marks_no_matter()
    ensures { MarksNoMatter }
{}

// 21 always has a set to mark, where no day has a fewest above its most.
pub fn answerable()
    ensures { Answerable }
{}

// The worked cases, of plans and of books, from the definitions by computation.
pub fn worked_cases()
    ensures { WorkedCases }
{}
