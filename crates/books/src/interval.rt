// A rights book of grants and pools, each a row of pages.
ghost use Rattle.std.specs.Prelude.{◌≡◌, ◌≤◌, true, vec_len, vec_capacity};
ghost use Rattle.books.specs.Intervals.{tidy};

use crate::grant::Grant;
use platform::span::Span;

mod rights;
mod setup;

// As many grants can be held.
const ROOM: usize = 32;

// Up to 32 grants, and one pool a guest, that of guest 1 first. Over each page the greatest grant counts.
// The table of grants is made once, at its full size.
// kept: the grants are a list that is searched, and no map. Its room is fixed, and no call but `new` may allocate.
// kept: no `impl Model`. The laws of a book would then be of every ledger, and of one that is not tidy they do not hold.
#[derive(Drop)]
pub struct IntervalBook {
    grants: Vec<Grant>,
    pools: [Option<Span>; 8],
    ghost room: { (vec_len grants ≤ 32) × (32 ≤ vec_capacity grants) },
    ghost neat: { tidy grants.items pools ≡ true },
}
