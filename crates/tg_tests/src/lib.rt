//! Tests of tree grammars and their texts. They stand here, above what they try, so that
//! no crate is proved a second time for its tests' sake.
#![tactic(auto)]

#[cfg(test)]
mod grammars;
#[cfg(test)]
mod syntax;
#[cfg(test)]
mod texts;
#[cfg(test)]
mod trees;
