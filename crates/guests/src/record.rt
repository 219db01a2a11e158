// One guest's record.
use platform::units::{Address, Page};

// What is kept of one guest: whether it is admitted, its paging state and the page of its base,
// and its fault status, which is a code and an address and 0 before any abort.
// kept: two flags beside values. A base stays while paging is off; and were the record of a guest that is not admitted missing,
// that of the guest that runs would have to be unwrapped, though it is there.
// kept: `code` is a number, since it is 0 before any abort and has the bit of a write; code and address are no struct of their
// own, and are answered as the pair that the listing prints.
#[derive(Clone, Copy, Debug, PartialEq, Eq)]
pub struct GuestRecord {
    pub admitted: bool,
    pub paging: bool,
    pub base: Page,
    pub code: u32,
    pub address: Address,
}
