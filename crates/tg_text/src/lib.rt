//! Grammar text: a list of classes with the canonical texts of their trees.
//!
//! # Model
//!
//! - `specs/GrammarText` says what is written of a class (`ClassText`: its name, the texts of its
//!   trees, whether it was cut), and which bytes that is: one line for the class, one for each tree
//!   with its number from 1, and one with how many they are.
//! - `specs/Lines` says which line may stand behind others (`Follows`), by where these lead: a class
//!   comes with a name that is new, a tree with the next number and a text that is greater than those
//!   before it, a closing line with how many trees there are.
//! - `specs/Naming` says which texts classes put into the table of names, in the order of the text
//!   (`PutsClasses`): each the name of the class, and then what its trees name.
//! - `specs/Answers` says which answer is right for bytes by one table (`IsGrammarReading`): classes
//!   whose text the bytes are, or the first of four refusals. The bytes are no UTF-8; they have another
//!   version; they are no text of the grammar (`tg_syntax`); or a line may not stand where it stands,
//!   the first one. `IsGrammarAnswer` says the same of the tables before and behind the reading, and
//!   that behind classes the table got what they name, and nothing else.
//!
//! # How it is done
//!
//! The bytes are tested for UTF-8, for their version and for their syntax. Then they are gone over
//! once more, line by line: what stands in front of the rest is compared with what has to stand there,
//! and the tree is read (`tg_reader`) and added to its class. Nothing there relies on the syntax, so
//! that the lines are judged by `Follows` alone. The number of a line that may not stand there is
//! counted at the end.
//!
//! # What the crates above can rely on
//!
//! - [`write_grammar`] gives just the bytes of `grammar_text`, from the texts that stand in the tree
//!   sets beside the trees, or answers want of memory.
//! - [`read_grammar`] gives the right answer. The table of texts only grows, by no more texts than
//!   there are bytes, also where the text is refused.
//! - [`laws`]: one answer is right, and behind classes one table; what was written is read back.
//! - [`obeys::written_text_obeys`]: what is written is a text of the grammar of grammar text, in which
//!   no property breaks the rule, where the classes can be written.
#![tactic(auto)]

pub mod laws;
mod lines;
pub mod obeys;
mod reading;
mod writing;

pub use gr_base::Memory;
pub use reading::read_grammar;
pub use writing::write_grammar;
