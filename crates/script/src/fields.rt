// The fields of a body: numbers of one, two or four bytes, the lowest byte first.
ghost use Rattle.std.specs.Prelude.{◌≡◌, drop, OnOk};
ghost use Rattle.script.specs.Fields.{next_bytes, next_field, next_span, no_more};

use platform::refusal::Refusal;
use platform::span::Span;

// The fields of a body that are still to be read. What is not there whole is refused.
#[derive(Drop)]
pub struct Fields<'a> {
    rest: &'a [u8],
}

impl<'a> Fields<'a> {
    // All fields of a body.
    pub fn new(body: &'a [u8]) -> Fields<'a>
        ensures answer { result.rest.now ≡ body.now }
    {
        Fields { rest: body }
    }

    // The next bytes.
    fn bytes<const N: usize>(&mut self) -> Result<[u8; N], Refusal>
        ensures answer { result ≡ next_bytes N self.old.rest.now }
        ensures after { OnOk result (self.new.rest.now ≡ drop N self.old.rest.now) }
    {
        let (bytes, rest) = self
            .rest
            .split_first_chunk::<N>()
            .ok_or(Refusal::WrongLength)?;
        self.rest = rest;
        Ok(*bytes)
    }

    // The next byte.
    // kept: this and the two below are of one shape. To be one function they would want a trait of our own for three types.
    pub fn byte(&mut self) -> Result<u8, Refusal>
        ensures answer { result ≡ next_field 1 self.old.rest.now }
        ensures after { OnOk result (self.new.rest.now ≡ drop 1 self.old.rest.now) }
    {
        Ok(u8::from_le_bytes(self.bytes()?))
    }

    // The next halfword.
    pub fn halfword(&mut self) -> Result<u16, Refusal>
        ensures answer { result ≡ next_field 2 self.old.rest.now }
        ensures after { OnOk result (self.new.rest.now ≡ drop 2 self.old.rest.now) }
    {
        Ok(u16::from_le_bytes(self.bytes()?))
    }

    // The next word.
    pub fn word(&mut self) -> Result<u32, Refusal>
        ensures answer { result ≡ next_field 4 self.old.rest.now }
        ensures after { OnOk result (self.new.rest.now ≡ drop 4 self.old.rest.now) }
    {
        Ok(u32::from_le_bytes(self.bytes()?))
    }

    // The next two words, as the first page and the count of pages.
    pub fn span(&mut self) -> Result<Span, Refusal>
        ensures answer { result ≡ next_span self.old.rest.now }
        ensures after { OnOk result (self.new.rest.now ≡ drop 8 self.old.rest.now) }
    {
        Ok(Span {
            first: self.word()?,
            count: self.word()?,
        })
    }

    // That no byte is left.
    pub fn end(&self) -> Result<(), Refusal>
        ensures answer { result ≡ no_more self.now.rest.now }
    {
        if !self.rest.is_empty() {
            return Err(Refusal::WrongLength);
        }
        Ok(())
    }
}
