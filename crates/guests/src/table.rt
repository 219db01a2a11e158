// The records of all guests.
ghost use Rattle.std.specs.Prelude.{◌≡◌, true};
ghost use Rattle.guests.specs.Running.{guest_or_none};

use crate::record::GuestRecord;
use platform::units::Guest;

mod calls;
mod setup;

// The record of each guest, that of guest 1 first, and the guest that runs, if any.
// kept: no `impl Model`. It was tried, and the check refuses a `Value` that has a function in it, as a roster has.
#[derive(Drop)]
pub struct Guests {
    records: [GuestRecord; 8],
    running: Option<Guest>,
    ghost known: { guest_or_none running ≡ true },
}
