// What comes out of a walk.
use crate::abort::Abort;
use platform::right::Right;
use platform::units::Page;

// A physical page, and the right with which it is mapped.
#[derive(Clone, Copy, Debug, PartialEq, Eq)]
pub struct Mapping {
    pub page: Page,
    pub right: Right,
}

// What a guest's tables ask for at an address: a guest page and a right, and the abort where the right is too little.
#[derive(Clone, Copy, Debug, PartialEq, Eq)]
pub struct Ask {
    pub page: Page,
    pub right: Right,
    pub denied: Abort,
}
