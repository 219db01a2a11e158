// Access permission.
ghost use Rattle.std.specs.Prelude.{◌≡◌};
ghost use Rattle.descriptor.specs.Permissions.{permitted, section_permission, page_permission};

use crate::bits::{bits, join};
use platform::right::Right;
use platform::units::Word;

// The right that a three-bit access permission gives: 0 and 4 nothing, 1 to 3 write, the others read.
// kept: a number. It is three bits of a word, which are turned into a `Right` as soon as they are read.
pub fn permitted(permission: u32) -> Right
    ensures answer { result ≡ permitted permission }
{
    match permission {
        0 | 4 => Right::Nothing,
        1..=3 => Right::Write,
        _ => Right::Read,
    }
}

// kept: the two differ in the format's bit numbers alone. A generic function would take them as parameters, which says less than
// the names of the format's fields, and would need a `requires` on them.

// The access permission of a section: bit 15, then bits 11 and 10.
pub fn section_permission(word: Word) -> u32
    ensures answer { result ≡ section_permission word }
{
    join(bits(word, 15, 15), 2, bits(word, 11, 10))
}

// The access permission of a page: bit 9, then bits 5 and 4.
pub fn page_permission(word: Word) -> u32
    ensures answer { result ≡ page_permission word }
{
    join(bits(word, 9, 9), 2, bits(word, 5, 4))
}
