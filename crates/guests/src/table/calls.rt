// The calls that touch no table.
ghost use Rattle.std.specs.Prelude.{◌≡◌, ◌<◌, IfOk};
ghost use Rattle.guests.specs.Rosters.{roster, running_place, schedule_answer, schedule_after, call_answer, switch_after, paging_after, status_answer};

use super::Guests;
use platform::address::page_of;
use platform::guest::place_of;
use platform::refusal::Refusal;
use platform::units::{Address, Guest};

impl Guests {
    // Where the running guest's record stands.
    fn running_place(&self) -> Result<usize, Refusal>
        ensures answer { result ≡ running_place self.now.running }
        ensures within { IfOk result (λ i. i < 8) }
    {
        let guest = self.running.ok_or(Refusal::NoGuestRuns)?;
        place_of(guest)
    }

    // Names the guest that runs from here on.
    pub fn schedule(&mut self, guest: Guest) -> Result<(), Refusal>
        ensures answer { result ≡ schedule_answer (roster self.old) guest }
        ensures after { roster self.new ≡ schedule_after (roster self.old) guest }
    {
        let i = place_of(guest)?;
        if !self.records[i].admitted {
            return Err(Refusal::NotAdmitted);
        }
        self.running = Some(guest);
        Ok(())
    }

    // Sets the running guest's base, of which the low 12 bits do not count.
    pub fn switch(&mut self, base: Address) -> Result<(), Refusal>
        ensures answer { result ≡ call_answer (roster self.old) }
        ensures after { roster self.new ≡ switch_after (roster self.old) base }
    {
        let i = self.running_place()?;
        self.records[i].base = page_of(base);
        Ok(())
    }

    // Sets the running guest's paging state.
    pub fn set_paging(&mut self, on: bool) -> Result<(), Refusal>
        ensures answer { result ≡ call_answer (roster self.old) }
        ensures after { roster self.new ≡ paging_after (roster self.old) on }
    {
        let i = self.running_place()?;
        self.records[i].paging = on;
        Ok(())
    }

    // The running guest's fault status: code and address.
    pub fn status(&self) -> Result<(u32, Address), Refusal>
        ensures answer { result ≡ status_answer (roster self.now) }
    {
        let i = self.running_place()?;
        let record = &self.records[i];
        Ok((record.code, record.address))
    }
}
