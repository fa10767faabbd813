//! Tests of a run, of its words and its refusals, and of what lies outside. They stand here, above what they try, so that
//! no crate is proved a second time for its tests' sake.
#![tactic(auto)]

#[cfg(test)]
mod outside;
#[cfg(test)]
mod refusals;
#[cfg(test)]
mod runs;
#[cfg(test)]
mod words;
