// The commands of a script.
ghost use Rattle.std.specs.Prelude.{◌≡◌};
ghost use Rattle.script.specs.Commands.{kind_of};

use super::kind::Kind;
use platform::access::Access;
use platform::span::Span;
use platform::units::{Address, Guest, Page, Word};

// What a record says: those up to `Start` set up, the others are calls.
#[derive(Clone, Copy, Debug, PartialEq, Eq)]
pub enum Command {
    // The window: these guest pages.
    Window(Span),
    // The memory has these pages.
    Present(Span),
    // A word of memory, as the machine starts.
    Word { page: Page, place: u16, word: Word },
    // The pages that a guest's page tables are built in.
    Pool { guest: Guest, span: Span },
    // What a guest may do on some pages: `right` 1 is read, 2 is write.
    // kept: `right` is the number as it stands in the script. By a rule of the project tests keep their values, and one reads a
    // number here that a `Right` cannot give back.
    Grant { guest: Guest, span: Span, right: u8 },
    // Setting up ends.
    Start,
    // A guest runs from now on.
    Schedule(Guest),
    // The guest takes the first-level table at an address.
    Switch(Address),
    PagingOn,
    PagingOff,
    // All translations are dropped.
    Flush,
    // The translation of the page of an address is dropped.
    FlushPage(Address),
    // The guest faulted at an address.
    Fault { address: Address, access: Access },
    // The guest loads the word at an address.
    Load(Address),
    // The guest stores a word at an address.
    Store { address: Address, word: Word },
    // The fault status and the fault address are asked for.
    Status,
}

impl Command {
    // The kind of the records that say such a command.
    pub fn kind(self) -> Kind
        ensures answer { result ≡ kind_of self }
    {
        match self {
            Command::Window(_) => Kind::Window,
            Command::Present(_) => Kind::Present,
            Command::Word { .. } => Kind::Word,
            Command::Pool { .. } => Kind::Pool,
            Command::Grant { .. } => Kind::Grant,
            Command::Start => Kind::Start,
            Command::Schedule(_) => Kind::Schedule,
            Command::Switch(_) => Kind::Switch,
            Command::PagingOn => Kind::PagingOn,
            Command::PagingOff => Kind::PagingOff,
            Command::Flush => Kind::Flush,
            Command::FlushPage(_) => Kind::FlushPage,
            Command::Fault { .. } => Kind::Fault,
            Command::Load(_) => Kind::Load,
            Command::Store { .. } => Kind::Store,
            Command::Status => Kind::Status,
        }
    }
}
