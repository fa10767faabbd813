//! Tests of the layers that all share, of lexicons and of inputs. They stand here, above what they try, so that
//! no crate is proved a second time for its tests' sake.
//!
//! A table of rows, one for each case, and a loop over them are preferred to a line for each.
#![tactic(auto)]

#[cfg(test)]
mod feats;
#[cfg(test)]
mod grammar;
#[cfg(test)]
mod inputs;
#[cfg(test)]
mod lexicon;
#[cfg(test)]
mod reader;
#[cfg(test)]
mod store;
#[cfg(test)]
mod symbols;
#[cfg(test)]
mod texts;
#[cfg(test)]
mod tokens;
