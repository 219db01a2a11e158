// The kinds of records.
ghost use Rattle.std.specs.Prelude.{◌≡◌, IfOk};
ghost use Rattle.script.specs.Kinds.{kind_number, kind_numbered};

use platform::refusal::Refusal;

// The kinds of records: those up to `Start` set up, the others call.
#[derive(Clone, Copy, Debug, PartialEq, Eq)]
pub enum Kind {
    Window,
    Present,
    Word,
    Pool,
    Grant,
    Start,
    Schedule,
    Switch,
    PagingOn,
    PagingOff,
    Flush,
    FlushPage,
    Fault,
    Load,
    Store,
    Status,
}

// The number by which a kind goes in a script.
// kept: a `match`, for the reason of `Refusal`.
impl From<Kind> for u16 {
    ghost from_gives = { λ kind n. n ≡ kind_number kind };

    fn from(kind: Kind) -> u16 {
        match kind {
            Kind::Window => 1,
            Kind::Present => 2,
            Kind::Word => 3,
            Kind::Pool => 4,
            Kind::Grant => 5,
            Kind::Start => 6,
            Kind::Schedule => 16,
            Kind::Switch => 17,
            Kind::PagingOn => 18,
            Kind::PagingOff => 19,
            Kind::Flush => 20,
            Kind::FlushPage => 21,
            Kind::Fault => 22,
            Kind::Load => 23,
            Kind::Store => 24,
            Kind::Status => 25,
        }
    }
}

// The kind that a number of a script names. Any other number is refused.
impl TryFrom<u16> for Kind {
    type Error = Refusal;

    ghost try_from_gives = { λ n r. (r ≡ kind_numbered n) × IfOk r (λ kind. kind_number kind ≡ n) };

    fn try_from(number: u16) -> Result<Kind, Refusal> {
        match number {
            1 => Ok(Kind::Window),
            2 => Ok(Kind::Present),
            3 => Ok(Kind::Word),
            4 => Ok(Kind::Pool),
            5 => Ok(Kind::Grant),
            6 => Ok(Kind::Start),
            16 => Ok(Kind::Schedule),
            17 => Ok(Kind::Switch),
            18 => Ok(Kind::PagingOn),
            19 => Ok(Kind::PagingOff),
            20 => Ok(Kind::Flush),
            21 => Ok(Kind::FlushPage),
            22 => Ok(Kind::Fault),
            23 => Ok(Kind::Load),
            24 => Ok(Kind::Store),
            25 => Ok(Kind::Status),
            _ => Err(Refusal::UnknownKind),
        }
    }
}
