// Rights books: the byte book and the interval book.
#![tactic(auto)]

pub mod bytes;
pub mod grant;
pub mod interval;
