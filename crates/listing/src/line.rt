// A line of the listing.
ghost use Rattle.std.specs.Prelude.{Some};
ghost use Rattle.listing.specs.Texts.{line_text};

use crate::reply::Outcome;
use std::fmt;

// The number of a record in its script, its kind, and what came of it.
// kept: the kind is a number, since the line of a record that is refused has any number.
#[derive(Clone, Copy, Debug, PartialEq, Eq)]
pub struct Line {
    pub number: u64,
    pub kind: u16,
    pub outcome: Outcome,
}

// The text of a line, with no line feed.
impl fmt::Display for Line {
    ghost output = { λ x. Some (line_text x) };

    fn fmt<W: fmt::Write>(&self, f: &mut fmt::Formatter<W>) -> fmt::Result {
        let Line {
            number,
            kind,
            outcome,
        } = *self;
        write!(f, "{number} {kind} ")?;
        match outcome {
            Ok(reply) => write!(f, "{reply}"),
            Err(refusal) => write!(f, "refused {}", u8::from(refusal)),
        }
    }
}
