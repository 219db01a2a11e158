// The script: records of a length, a kind and a body, read one by one from borrowed bytes,
// and the commands that they say.
#![tactic(auto)]

mod command;
mod decode;
mod fields;
mod kind;
mod reader;
mod record;
mod whole;

pub use command::Command;
pub use kind::Kind;
pub use reader::ScriptReader;
pub use record::Record;
pub use whole::{BadRecord, Script, read_script};
