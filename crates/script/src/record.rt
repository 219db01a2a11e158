// A record as it stands in a script.

// A record's kind number, and its body, which is a part of the script.
// kept: the kind is a number, since a record may have a number that no `Kind` has.
#[derive(Clone, Copy, Debug, PartialEq, Eq)]
pub struct Record<'a> {
    pub kind: u16,
    pub body: &'a [u8],
}
