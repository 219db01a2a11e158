// Worked examples of the core: a theorem over a list, and tests with tables of cases.
#![tactic(auto)]

#[cfg(test)]
mod calls;
#[cfg(test)]
mod descriptors;
pub mod examples;
#[cfg(test)]
mod limits;
#[cfg(test)]
mod memory_words;
#[cfg(test)]
mod numbers;
#[cfg(test)]
mod page_keepers;
#[cfg(test)]
mod program;
#[cfg(test)]
mod records;
#[cfg(test)]
mod rights_books;
#[cfg(test)]
mod walks;
