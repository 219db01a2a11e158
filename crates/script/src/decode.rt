// What command a record says.
ghost use Rattle.std.specs.Prelude.{◌≡◌, IfOk};
ghost use Rattle.script.specs.Kinds.{kind_number};
ghost use Rattle.script.specs.Commands.{kind_of, said_by, at_end, command_of};

use super::command::Command;
use super::fields::Fields;
use super::kind::Kind;
use super::record::Record;
use platform::access::Access;
use platform::refusal::Refusal;

impl<'a> Fields<'a> {
    // The command of a kind that the next fields say.
    fn command(&mut self, kind: Kind) -> Result<Command, Refusal>
        ensures answer { at_end self.new.rest.now result ≡ said_by kind self.old.rest.now }
        ensures kind { IfOk result (λ c. kind_of c ≡ kind) }
    {
        match kind {
            Kind::Window => Ok(Command::Window(self.span()?)),
            Kind::Present => Ok(Command::Present(self.span()?)),
            Kind::Word => Ok(Command::Word {
                page: self.word()?,
                place: self.halfword()?,
                word: self.word()?,
            }),
            Kind::Pool => Ok(Command::Pool {
                guest: self.byte()?,
                span: self.span()?,
            }),
            Kind::Grant => Ok(Command::Grant {
                guest: self.byte()?,
                span: self.span()?,
                right: self.byte()?,
            }),
            Kind::Start => Ok(Command::Start),
            Kind::Schedule => Ok(Command::Schedule(self.byte()?)),
            Kind::Switch => Ok(Command::Switch(self.word()?)),
            Kind::PagingOn => Ok(Command::PagingOn),
            Kind::PagingOff => Ok(Command::PagingOff),
            Kind::Flush => Ok(Command::Flush),
            Kind::FlushPage => Ok(Command::FlushPage(self.word()?)),
            Kind::Fault => Ok(Command::Fault {
                address: self.word()?,
                access: Access::from(self.byte()?),
            }),
            Kind::Load => Ok(Command::Load(self.word()?)),
            Kind::Store => Ok(Command::Store {
                address: self.word()?,
                word: self.word()?,
            }),
            Kind::Status => Ok(Command::Status),
        }
    }
}

impl<'a> Record<'a> {
    // The command that the record says. An unknown kind is refused, and so is a body of another length than its kind has.
    pub fn command(&self) -> Result<Command, Refusal>
        ensures answer { result ≡ command_of self.now.kind self.now.body.now }
        ensures kind { IfOk result (λ c. kind_number (kind_of c) ≡ self.now.kind) }
    {
        let kind = Kind::try_from(self.kind)?;
        let mut fields = Fields::new(self.body);
        let command = fields.command(kind)?;
        fields.end()?;
        Ok(command)
    }
}
