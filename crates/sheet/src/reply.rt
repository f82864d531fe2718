ghost use Rattle.std.specs.Prelude.{Some};
ghost use Rattle.sheet.specs.Texts.{refused_text};

use crate::fault::Refusal;
use refusals::Fault;
use std::fmt;

impl fmt::Display for Refusal {
    ghost output = { λ r. Some (refused_text r) };

    fn fmt<W: fmt::Write>(&self, f: &mut fmt::Formatter<W>) -> fmt::Result {
        let Refusal {
            fault,
            line,
            column,
        } = *self;
        write!(
            f,
            "refused {line} {column} {} {}",
            fault.layer(),
            fault.number()
        )
    }
}
