// A whole script, read to its end or to the first record that is refused.
ghost use Rattle.std.specs.Prelude.{◌≡◌, ◌*◌, ◌≤◌, length, IfOk, vec_len};
ghost use Rattle.script.specs.Records.{reading, rest_after, Spelled};
ghost use Rattle.script.specs.Scripts.{step, contents, script_of};
ghost use Rattle.script.specs.Laws.{ReadsWhole};

use super::command::Command;
use super::reader::ScriptReader;
use platform::refusal::Refusal;
use std::alloc::{AllocError, Global};

// The record at which reading stopped: the number of its kind, if it is whole, and why it is refused.
// kept: the kind is a number, as in `Record`.
#[derive(Clone, Copy, Debug, PartialEq, Eq)]
pub struct BadRecord {
    pub kind: Option<u16>,
    pub refusal: Refusal,
}

// The commands of a script, in order, and how they end: with the script, or at a record that is refused.
#[derive(Drop)]
pub struct Script {
    pub commands: Vec<Command>,
    pub end: Result<(), BadRecord>,
}

impl<'a> ScriptReader<'a> {
    // The command of the next record, if there is one.
    fn next_command(&mut self) -> Result<Option<Command>, BadRecord>
        ensures answer { result ≡ step (reading self.old.rest.now) }
        ensures after { self.new.rest.now ≡ rest_after (reading self.old.rest.now) self.old.rest.now }
        ensures law { Spelled (reading self.old.rest.now) self.old.rest.now self.new.rest.now }
    {
        let next = self.next().map_err(|refusal| BadRecord {
            kind: None,
            refusal,
        })?;
        let Some(record) = next else {
            return Ok(None);
        };
        let command = record.command().map_err(|refusal| BadRecord {
            kind: Some(record.kind),
            refusal,
        })?;
        Ok(Some(command))
    }
}

// Reads a script to its end, or to the first record that is refused. A command takes four bytes at least.
pub fn read_script(heap: Global, input: &[u8]) -> Result<Script, AllocError>
    ensures answer { IfOk result (λ s. contents s ≡ script_of input.now) }
    ensures law { IfOk result (λ s. ReadsWhole input.now s.commands.items s.end) }
    ensures bound { IfOk result (λ s. 4 * vec_len s.commands ≤ length input.now) }
{
    let mut commands = Vec::new(heap);
    let mut reader = ScriptReader::new(input);
    let end = 'records: loop {
        match reader.next_command() {
            Ok(Some(command)) => commands.push(command)?,
            Ok(None) => break Ok(()),
            Err(bad) => break Err(bad),
        }
    };
    Ok(Script { commands, end })
}
