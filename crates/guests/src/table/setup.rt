// Making the table, and admitting guests.
ghost use Rattle.std.specs.Prelude.{◌≡◌};
ghost use Rattle.guests.specs.Rosters.{roster, fresh, admit_answer, admit_after};

use super::Guests;
use crate::record::GuestRecord;
use platform::guest::place_of;
use platform::refusal::Refusal;
use platform::units::Guest;

// A guest that is not admitted, with paging off and base 0.
const BLANK: GuestRecord = GuestRecord {
    admitted: false,
    paging: false,
    base: 0,
    code: 0,
    address: 0,
};

impl Guests {
    // No guest is admitted, and none runs.
    #[tactic(auto, using(crate::proofs::Rosters::blank_records))]
    pub fn new() -> Self
        ensures answer { roster result ≡ fresh }
    {
        Guests {
            records: [BLANK; 8],
            running: None,
        }
    }

    // Admits a guest.
    pub fn admit(&mut self, guest: Guest) -> Result<(), Refusal>
        ensures answer { result ≡ admit_answer (roster self.old) guest }
        ensures after { roster self.new ≡ admit_after (roster self.old) guest }
    {
        let i = place_of(guest)?;
        let record = &mut self.records[i];
        if record.admitted {
            return Err(Refusal::AlreadySetUp);
        }
        record.admitted = true;
        Ok(())
    }
}
