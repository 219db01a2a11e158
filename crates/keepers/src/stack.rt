// The make of a page keeper that takes the page that was given last.
ghost use Rattle.std.specs.Prelude.{◌≡◌, ◌≤◌, true, vec_len, vec_capacity};
ghost use Rattle.keepers.specs.Sets.{stacked};

use crate::keeper::Keeper;
use platform::units::Page;

mod share;

// One guest's pages in the order in which they were enrolled, and its free ones as a stack.
// Both tables are made once, at their full size.
// kept: two lists that are searched, and no map: the free pages have an order of their own, and no call but `new` may allocate.
#[derive(Drop)]
pub struct PageStack {
    pages: Vec<Page>,
    free: Vec<Page>,
    ghost room: { (vec_len pages ≤ 64) × (64 ≤ vec_capacity pages) × (64 ≤ vec_capacity free) },
    ghost neat: { stacked pages.items free.items ≡ true },
}

// A stack for each guest.
pub type StackKeeper = Keeper<PageStack>;
