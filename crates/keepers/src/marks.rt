// The make of a page keeper that goes round its marks from the page that was taken last.
ghost use Rattle.std.specs.Prelude.{◌≡◌, ◌≤◌, true, vec_len, vec_capacity};
ghost use Rattle.keepers.specs.Rows.{pages_of};
ghost use Rattle.keepers.specs.Sets.{distinct};

use crate::keeper::Keeper;
use crate::mark::Mark;

mod places;
mod share;

// One guest's marks in the order in which the pages were enrolled, and the place after the one taken last, 0 before any was.
// The table of marks is made once, at its full size.
// kept: a list that is searched, and no map: its order is that of enrolment, its room is fixed, and no call but `new` may allocate.
#[derive(Drop)]
pub struct PageMarks {
    marks: Vec<Mark>,
    next: usize,
    ghost room: { (vec_len marks ≤ 64) × (64 ≤ vec_capacity marks) × (next ≤ vec_len marks) },
    ghost neat: { distinct (pages_of marks.items) ≡ true },
}

// Marks for each guest.
pub type MarksKeeper = Keeper<PageMarks>;
