//! Tests of tree descriptions, their models and the texts of trees. They stand here, above what they try, so that
//! no crate is proved a second time for its tests' sake.
//!
//! `sketch` makes descriptions from short texts, and `samples` has small trees.
#![tactic(auto)]

#[cfg(test)]
mod canonical;
#[cfg(test)]
mod checking;
#[cfg(test)]
mod colours;
#[cfg(test)]
mod descriptions;
#[cfg(test)]
mod forests;
#[cfg(test)]
mod networks;
#[cfg(test)]
mod samples;
#[cfg(test)]
mod sketch;
#[cfg(test)]
mod solving;
#[cfg(test)]
mod trees;
