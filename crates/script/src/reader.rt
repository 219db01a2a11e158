// The reader, which finds the records of a script one after another.

mod next;

// What is left of a script to be read.
#[derive(Drop)]
pub struct ScriptReader<'a> {
    rest: &'a [u8],
}
