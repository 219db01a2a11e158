// What a record was answered.
ghost use Rattle.std.specs.Prelude.{Some};
ghost use Rattle.listing.specs.Texts.{reply_text};

use platform::refusal::Refusal;
use std::fmt;

// What a record was answered that was not refused.
#[derive(Clone, Copy, Debug, PartialEq, Eq)]
pub enum Reply {
    // It was served.
    Done,
    // The guest takes an abort, with this fault status.
    // kept: a number, which is printed as it is. By a rule of the project the listing rests on `platform` alone, and the aborts
    // have their names in `walk`.
    Abort(u8),
    // It was answered a word.
    Word(u32),
    // It was answered two words.
    Pair(u32, u32),
}

// What came of a record: the reply, or why it was refused.
pub type Outcome = Result<Reply, Refusal>;

impl fmt::Display for Reply {
    ghost output = { λ x. Some (reply_text x) };

    #[tactic(auto, using(crate::proofs::Digits::shown_byte, crate::proofs::Digits::shown_word))]
    fn fmt<W: fmt::Write>(&self, f: &mut fmt::Formatter<W>) -> fmt::Result {
        match *self {
            Reply::Done => write!(f, "ok"),
            Reply::Abort(status) => write!(f, "abort {status:02X}"),
            Reply::Word(word) => write!(f, "word {word:08X}"),
            Reply::Pair(first, second) => write!(f, "pair {first:08X} {second:08X}"),
        }
    }
}
