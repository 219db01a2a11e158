// Where an address leads in tables and pages.
ghost use Rattle.std.specs.Prelude.{◌≡◌};
ghost use Rattle.descriptor.specs.Addresses.{first_index, second_index, page_place};

use crate::bits::bits;
use platform::units::{Address, Place};

// kept: each of the three is one call of `bits`, and carries the format's name for the field.

// The place of an address in a first-level table: bits 31 to 20.
pub fn first_index(va: Address) -> Place
    ensures answer { result ≡ first_index va }
{
    bits(va, 31, 20)
}

// The place of an address in a second-level table: bits 19 to 12.
pub fn second_index(va: Address) -> Place
    ensures answer { result ≡ second_index va }
{
    bits(va, 19, 12)
}

// The place of the word at an address in its page: bits 11 to 2.
pub fn page_place(va: Address) -> Place
    ensures answer { result ≡ page_place va }
{
    bits(va, 11, 2)
}
