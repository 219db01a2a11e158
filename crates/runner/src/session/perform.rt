// Serving a command.
ghost use Rattle.std.specs.Prelude.{◌≡◌, true, false, is_err};
ghost use Rattle.runner.specs.States.{state};
ghost use Rattle.runner.specs.Turns.{done, outcome_of, perform};

use super::{Session, Step};
use books::grant::Grant;
use listing::{Outcome, Reply};
use platform::refusal::Refusal;
use platform::right::Right;
use script::Command;
use std::ops::ControlFlow::{Break, Continue};

// The outcome of a call whose answer is only whether it was accepted.
fn done(answer: Result<(), Refusal>) -> Outcome
    ensures answer { result ≡ done answer }
{
    answer.and(Ok(Reply::Done))
}

impl Session {
    // A command before start.
    fn set_up(&mut self, command: Command) -> Step
        requires { self.old.started ≡ false }
        ensures answer { result ≡ (perform (state self.old) command).step }
        ensures after { state self.new ≡ (perform (state self.old) command).after }
    {
        match command {
            Command::Window(pages) => Continue(done(self.set_window(pages))),
            Command::Present(pages) => Continue(done(self.memory.list(pages))),
            Command::Word { page, place, word } => {
                Continue(done(self.memory.put(page, u32::from(place), word)))
            }
            Command::Pool { guest, span } => Continue(done(self.book.set_pool(guest, span))),
            Command::Grant { guest, span, right } => {
                let right = Right::from(right);
                Continue(done(self.book.grant(Grant { guest, span, right })))
            }
            Command::Start => match self.start() {
                Ok(()) => Continue(Ok(Reply::Done)),
                Err(refusal) => Break(Err(refusal)),
            },
            Command::Schedule(_)
            | Command::Switch(_)
            | Command::PagingOn
            | Command::PagingOff
            | Command::Status => Continue(Err(Refusal::WrongPhase)),
            _ => Break(Err(Refusal::UnknownKind)),
        }
    }

    // A command after start.
    fn call(&mut self, command: Command) -> Step
        requires { self.old.started ≡ true }
        ensures answer { result ≡ (perform (state self.old) command).step }
        ensures after { state self.new ≡ (perform (state self.old) command).after }
    {
        match command {
            Command::Schedule(guest) => Continue(done(self.guests.schedule(guest))),
            Command::Switch(base) => Continue(done(self.guests.switch(base))),
            Command::PagingOn => Continue(done(self.guests.set_paging(true))),
            Command::PagingOff => Continue(done(self.guests.set_paging(false))),
            Command::Status => Continue(
                self.guests
                    .status()
                    .map(|(code, address)| Reply::Pair(code, address)),
            ),
            Command::Flush
            | Command::FlushPage(_)
            | Command::Fault { .. }
            | Command::Load(_)
            | Command::Store { .. } => Break(Err(Refusal::UnknownKind)),
            _ => Continue(Err(Refusal::WrongPhase)),
        }
    }

    // Serves a command: what came of it, and whether the program goes on after it. A refusal changes nothing.
    pub fn perform(&mut self, command: Command) -> Step
        ensures answer { result ≡ (perform (state self.old) command).step }
        ensures after { state self.new ≡ (perform (state self.old) command).after }
        ensures same { is_err (outcome_of result) ≡ true → state self.new ≡ state self.old }
    {
        if self.started {
            self.call(command)
        } else {
            self.set_up(command)
        }
    }
}
