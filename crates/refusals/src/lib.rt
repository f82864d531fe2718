// What a refusal tells, whichever layer refuses.
#![tactic(auto)]

ghost use Rattle.std.specs.Prelude.{◌≡◌, ℕ, Option};

// Why a call is refused. Each layer has an enum of its own.
pub trait Fault {
    // the number of the refusal
    ghost numbered: { Self → ℕ };

    // what it names: a day, or a place, row or run counted from 0
    ghost placed: { Self → Option ℕ };

    // the letter of the layer where it arose
    ghost lettered: { Self → ℕ };

    // The number of the refusal.
    fn number(self) -> u16
        ensures { result ≡ numbered self };

    // The day, place, row or run that it names.
    fn place(self) -> Option<usize>
        ensures { result ≡ placed self };

    // The letter of the layer where it arose.
    fn layer(self) -> char
        ensures { result ≡ lettered self };
}
