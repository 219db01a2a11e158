// Aborts: how a walk ends that finds no mapping.
ghost use Rattle.std.specs.Prelude.{◌≡◌};
ghost use Rattle.walk.specs.Aborts.{code};

// The fault that the guest takes. Each case has a fault status code.
#[derive(Clone, Copy, Debug, PartialEq, Eq)]
pub enum Abort {
    // Translation fault, first level.
    SectionTranslation,
    // Translation fault, second level.
    PageTranslation,
    // Synchronous external abort: the page is not the guest's to use so.
    External,
    // Synchronous external abort on the table walk, first level.
    FirstLevelWalk,
    // Permission fault, first level.
    SectionPermission,
    // Synchronous external abort on the table walk, second level.
    SecondLevelWalk,
    // Permission fault, second level.
    PagePermission,
}

// The fault status code.
// kept: a `match`, for the reason of `Refusal`.
impl From<Abort> for u8 {
    ghost from_gives = { λ abort n. n ≡ code abort };

    fn from(abort: Abort) -> u8 {
        match abort {
            Abort::SectionTranslation => 0x05,
            Abort::PageTranslation => 0x07,
            Abort::External => 0x08,
            Abort::FirstLevelWalk => 0x0C,
            Abort::SectionPermission => 0x0D,
            Abort::SecondLevelWalk => 0x0E,
            Abort::PagePermission => 0x0F,
        }
    }
}
