// Which pages a guest can enrol.
ghost use Rattle.std.specs.Prelude.{◌≡◌};
ghost use Rattle.runner.specs.Enrolment.{enrollable_below};

use platform::book::RightsBook;
use platform::memory::Memory;
use platform::units::Guest;

// How many of the pages 0 to `count - 1` are in the memory and in the pool of an owner, or in no pool where none is asked for.
pub fn enrollable<M: Memory, B: RightsBook>(
    memory: &M,
    book: &B,
    count: u32,
    owner: Option<Guest>,
) -> u32
    ensures answer { result ≡ enrollable_below (M.Memory.contents memory.now) (B.RightsBook.rules book.now) owner count }
{
    (0..count)
        .filter(|page| book.pool(*page) == owner && memory.has(*page))
        .count() as u32
}
