//! Tests of metagrammars, from their texts to the trees of a class. They stand here, above what they try, so that
//! no crate is proved a second time for its tests' sake.
//!
//! `shown` writes a metagrammar as words.
#![tactic(auto)]

#[cfg(test)]
mod compiling;
#[cfg(test)]
mod deeds;
#[cfg(test)]
mod expanding;
#[cfg(test)]
mod facts;
#[cfg(test)]
mod printing;
#[cfg(test)]
mod reading;
#[cfg(test)]
mod scoping;
#[cfg(test)]
mod shown;
#[cfg(test)]
mod syntax;
