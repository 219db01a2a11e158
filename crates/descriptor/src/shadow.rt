// The words of shadow tables, built so that they read back as what they were built for.
ghost use Rattle.std.specs.Prelude.{◌≡◌};
ghost use Rattle.descriptor.specs.Shadow.{root_word, leaf_word, attributes, RootNamesLeaf, LeafReadsBack};

use crate::bits::{bits, join};
use platform::right::Right;
use platform::units::{Page, Word};

// The type of a first-level word that names a second-level table.
const TABLE: Word = 1;

// The low bits of a leaf's words: a small page that may be written, or only read.
const WRITABLE: Word = 0x03E;

const READABLE: Word = 0x23E;

// The low bits of a leaf's word with a right; 0 for none.
fn attributes(right: Right) -> Word
    ensures answer { result ≡ attributes right }
{
    match right {
        Right::Nothing => 0,
        Right::Read => READABLE,
        Right::Write => WRITABLE,
    }
}

// The word of a root's place that names a leaf. A page number has 20 bits, and no more of it counts.
pub fn root_word(leaf: Page) -> Word
    ensures answer { result ≡ root_word leaf }
    ensures law { RootNamesLeaf leaf result }
{
    join(bits(leaf, 19, 0), 12, TABLE)
}

// The word of a leaf's place that maps a page with a right.
pub fn leaf_word(page: Page, right: Right) -> Word
    ensures answer { result ≡ leaf_word page right }
    ensures law { LeafReadsBack page right result }
{
    join(bits(page, 19, 0), 12, attributes(right))
}
