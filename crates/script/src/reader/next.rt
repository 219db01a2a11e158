// How a reader starts, and how it finds the next record.
ghost use Rattle.std.specs.Prelude.{◌≡◌};
ghost use Rattle.script.specs.Records.{reading, seen, rest_after, Spelled};

use super::ScriptReader;
use crate::record::Record;
use platform::refusal::Refusal;

// A record begins with its length, which counts the bytes of the kind and of the body.
const KIND_SIZE: usize = 2;

impl<'a> ScriptReader<'a> {
    // A reader at the start of a script.
    pub fn new(input: &'a [u8]) -> ScriptReader<'a>
        ensures answer { result.rest.now ≡ input.now }
    {
        ScriptReader { rest: input }
    }

    // The record that is next, and the reader moves past it. The end and a refusal leave the reader as it was.
    // kept: no `Iterator`. After a refusal it would give the same again for ever, which no loop over it could be proved to end.
    pub fn next(&mut self) -> Result<Option<Record<'a>>, Refusal>
        ensures answer { seen result ≡ reading self.old.rest.now }
        ensures after { self.new.rest.now ≡ rest_after (seen result) self.old.rest.now }
        ensures law { Spelled (seen result) self.old.rest.now self.new.rest.now }
    {
        match self.rest {
            [] => Ok(None),
            [l0, l1, k0, k1, rest @ ..] => {
                let length = usize::from(u16::from_le_bytes([*l0, *l1]));
                let kind = u16::from_le_bytes([*k0, *k1]);
                let body_size = length.checked_sub(KIND_SIZE).ok_or(Refusal::RecordCut)?;
                let (body, rest) = rest.split_at_checked(body_size).ok_or(Refusal::RecordCut)?;
                self.rest = rest;
                Ok(Some(Record { kind, body }))
            }
            _ => Err(Refusal::RecordCut),
        }
    }
}
