// Grants.
use platform::right::Right;
use platform::span::Span;
use platform::units::Guest;

// A right of one guest on pages in a row.
#[derive(Clone, Copy, Debug, PartialEq, Eq)]
pub struct Grant {
    pub guest: Guest,
    pub span: Span,
    pub right: Right,
}
