// The calls of both makes in words of their own: what lies on each guest's stack, and how each guest's marks stand.
ghost use Rattle.std.specs.Prelude.{◌≡◌};
ghost use Rattle.platform.specs.Keepers.{enrol_answer, enrol_after, Taken, give_answer, give_after};
ghost use Rattle.keepers.specs.Orders.{holdings_of};
ghost use Rattle.keepers.specs.Rings.{ring_of, rings_of, enrolled_if, freed_if, round_chosen, round_left};
ghost use Rattle.keepers.specs.Rows.{ring_share};
ghost use Rattle.keepers.specs.Stacks.{pile_of, pile_share, stack_of, pushed_if, TopTaken};

use crate::marks::MarksKeeper;
use crate::stack::StackKeeper;
use platform::keeper::PageKeeper;
use platform::refusal::Refusal;
use platform::units::{Guest, Page};

// Enrols a page, which goes on top of the guest's stack.
pub fn stack_enrol(stack: &mut StackKeeper, guest: Guest, page: Page) -> Result<(), Refusal>
    ensures answer { result ≡ enrol_answer (holdings_of pile_share pile_of stack.old) guest page }
    ensures after { holdings_of pile_share pile_of stack.new ≡ enrol_after (holdings_of pile_share pile_of stack.old) guest page }
    ensures stack { stack_of stack.new ≡ pushed_if result (stack_of stack.old) guest page }
{
    stack.enrol(guest, page)
}

// Takes the page on top of the guest's stack.
pub fn stack_take(stack: &mut StackKeeper, guest: Guest) -> Result<Page, Refusal>
    ensures taken { Taken (holdings_of pile_share pile_of stack.old) guest result (holdings_of pile_share pile_of stack.new) }
    ensures chosen { TopTaken (stack_of stack.old) guest result (stack_of stack.new) }
{
    stack.take(guest)
}

// Gives a page back, which goes on top of the guest's stack.
pub fn stack_give(stack: &mut StackKeeper, guest: Guest, page: Page) -> Result<(), Refusal>
    ensures answer { result ≡ give_answer (holdings_of pile_share pile_of stack.old) guest page }
    ensures after { holdings_of pile_share pile_of stack.new ≡ give_after (holdings_of pile_share pile_of stack.old) guest page }
    ensures stack { stack_of stack.new ≡ pushed_if result (stack_of stack.old) guest page }
{
    stack.give(guest, page)
}

// Enrols a page, which has the last mark of the guest.
pub fn marks_enrol(marks: &mut MarksKeeper, guest: Guest, page: Page) -> Result<(), Refusal>
    ensures answer { result ≡ enrol_answer (holdings_of ring_share ring_of marks.old) guest page }
    ensures after { holdings_of ring_share ring_of marks.new ≡ enrol_after (holdings_of ring_share ring_of marks.old) guest page }
    ensures ring { rings_of marks.new ≡ enrolled_if result (rings_of marks.old) guest page }
{
    marks.enrol(guest, page)
}

// Takes the page of the guest's next free mark, going round.
pub fn marks_take(marks: &mut MarksKeeper, guest: Guest) -> Result<Page, Refusal>
    ensures taken { Taken (holdings_of ring_share ring_of marks.old) guest result (holdings_of ring_share ring_of marks.new) }
    ensures chosen { result ≡ round_chosen (rings_of marks.old) guest }
    ensures ring { rings_of marks.new ≡ round_left (rings_of marks.old) guest }
{
    marks.take(guest)
}

// Gives a page back, which is free where its mark stands.
pub fn marks_give(marks: &mut MarksKeeper, guest: Guest, page: Page) -> Result<(), Refusal>
    ensures answer { result ≡ give_answer (holdings_of ring_share ring_of marks.old) guest page }
    ensures after { holdings_of ring_share ring_of marks.new ≡ give_after (holdings_of ring_share ring_of marks.old) guest page }
    ensures ring { rings_of marks.new ≡ freed_if result (rings_of marks.old) guest page }
{
    marks.give(guest, page)
}
