//! The top call of xmgeni: words, files and a place for text in, a status out.
//!
//! [`run_one`] is all that the program does. Its one command is `compile MG`, with the option
//! `--models N`. It reads the metagrammar in the file MG and writes the trees of all its valued
//! classes, or the line of one refusal.
//!
//! # What is right
//!
//! `specs/Outcomes` says which status and which text are right for the bytes of a file under a
//! budget (`IsOutcome`). It is the statement that the program stands for, and puts together the
//! statements of the crates below:
//!
//! - The first refusal (`IsFirstRefusal`) is one line, and nothing else is written. It is that the
//!   file is too long, or else that it can't be read, or else the first fault against the rules of
//!   scope, or else the fault of the first valued class that has one.
//! - Where there is no refusal, the text has all valued classes in the order of their first
//!   valuations, each with the canonical texts of the trees of all minimal models of all its
//!   expansions, each once, in byte order. A list is cut exactly where the steps of its class are more
//!   than the budget; then it says so, and the status is `Shortened`. A cut list has all texts of the
//!   expansions that the budget pays for, and no others than texts of expansions that it reaches.
//! - Names are numbered by their first places in the file, so the bytes and the budget fix what is
//!   right. [`one_outcome`] says how far: the status; where the file is refused, the refusal; and all
//!   of the text, where the budget reaches the steps of each class. [`some_outcome`] says that for each
//!   file and budget there is a right outcome.
//!
//! # How
//!
//! `compiling` goes from the bytes to the trees of the valued classes: it reads, resolves, and
//! compiles one class after another. `refusals` has why it stops, in the words of `rl_refusals`,
//! and `outcome` makes the text, whole, from the trees or from the refusal. Only then is the first
//! byte written, so a refusal's line stands alone.
#![tactic(auto)]

mod compiling;
mod outcome;
mod refusals;
mod status;

ghost use Rattle.std.specs.Prelude.{◌≡◌, ◌≢◌, ◌↔◌, ℕ, List, IsTrue, ◌<◌, ◌≤◌, ◌⊎◌};
ghost use Rattle.gr_io.specs.Outside.{Rose};
ghost use Rattle.rl_words.specs.Requests.{AsksCompile};
ghost use Rattle.rl_top.specs.Outcomes.{IsEnough, IsOutcome, Tells, WritesFront, WritesWhole};
ghost use Rattle.rl_top.specs.declared.status.Status.{Status as Ending};

use crate::outcome::outcome_of;
use gr_io::{FetchFault, Shelf, Sink, write_all_of};
use gr_text::{BYTE_LIMIT, Name};
use mg_compile::laws::{
    cut_below_the_steps, each_class_has_an_answer, each_class_has_steps, one_compiled_list,
    one_fault, steps_are_enough,
};
use mg_reader::laws::{one_answer, one_table, some_answer};
use rl_refusals::laws::one_line;
use rl_words::compile_request;
pub use status::Status;
use std::alloc::Global;

/// Runs the program: the words behind its name, the files, and where text goes.
///
/// The words are those of `rl_words`. The file is fetched at file number 0, where the shelf serves
/// it. All is compiled before the first byte is written.
pub fn run_one<H: Shelf, K: Sink>(
    alloc: Global,
    words: &[Name],
    shelf: &mut H,
    out: &mut K,
) -> Status
    requires { (file : List ℕ) (models : ℕ) → AsksCompile words.now file models → IsTrue (H.serves shelf.old 0 file) }

    // On other words, and on no others, the words are refused, and the outside isn't called.
    ensures words { (result ≡ Status.WordsRefused) ↔ ((file : List ℕ) (models : ℕ) → AsksCompile words.now file models → ⊥) }
    ensures untouched { result ≡ Status.WordsRefused → (shelf.new ≡ shelf.old) × (out.new ≡ out.old) }

    // The whole of a right text was written.
    ensures done { result ≡ Status.Done → WritesWhole (H.files shelf.old) words.now Status.Done (K.written out.old) (K.written out.new) }
    ensures shortened { result ≡ Status.Shortened → WritesWhole (H.files shelf.old) words.now Status.Shortened (K.written out.old) (K.written out.new) }
    ensures refused { result ≡ Status.Refused → WritesWhole (H.files shelf.old) words.now Status.Refused (K.written out.old) (K.written out.new) }

    // No list is shorter where the budget is enough for each class.
    ensures enough { (file bytes : List ℕ) (models : ℕ) → AsksCompile words.now file models → Tells (H.files shelf.old) file bytes → IsEnough bytes models → result ≢ Status.Shortened }

    // A fault of the outside was counted by it, and none is passed over.
    ensures read_cause { result ≡ Status.ReadFault → Rose (H.faults shelf.old 0) (H.faults shelf.new 0) }
    ensures read_nothing { result ≡ Status.ReadFault → out.new ≡ out.old }
    ensures reads_kept { (result ≡ Status.Done) ⊎ (result ≡ Status.Shortened) ⊎ (result ≡ Status.Refused) ⊎ (result ≡ Status.WriteFault) ⊎ (result ≡ Status.Memory) → H.faults shelf.new 0 ≡ H.faults shelf.old 0 }
    ensures write_cause { result ≡ Status.WriteFault → Rose (K.faults out.old) (K.faults out.new) }
    ensures write_front { result ≡ Status.WriteFault → WritesFront (H.files shelf.old) words.now (K.written out.old) (K.written out.new) }
    ensures writes_kept { (result ≡ Status.Done) ⊎ (result ≡ Status.Shortened) ⊎ (result ≡ Status.Refused) → K.faults out.new ≡ K.faults out.old }

    // Without memory nothing was written.
    ensures memory { result ≡ Status.Memory → out.new ≡ out.old }

    // The outside stays as it was, but for what was counted and written.
    ensures same_files { H.files shelf.new ≡ H.files shelf.old }
    ensures same_names { H.serves shelf.new ≡ H.serves shelf.old }
    ensures other_counts { (n : ℕ) → n < 5 → n ≢ 0 → H.faults shelf.new n ≡ H.faults shelf.old n }
    ensures reads_never_fall { H.faults shelf.old 0 ≤ H.faults shelf.new 0 }
    ensures writes_never_fall { K.faults out.old ≤ K.faults out.new }
{
    one_outcome();
    let Some(request) = compile_request(words) else {
        return Status::WordsRefused;
    };
    let bytes = match shelf.fetch(alloc, 0, request.file.as_str(), BYTE_LIMIT) {
        Ok(bytes) => bytes,
        Err(FetchFault::Failed) => return Status::ReadFault,
        Err(FetchFault::Memory) => return Status::Memory,
    };
    let Ok(outcome) = outcome_of(alloc, bytes.as_slice(), request.models) else {
        return Status::Memory;
    };
    match write_all_of(out, outcome.text.as_bytes()) {
        Ok(()) => outcome.status,
        Err(_fault) => Status::WriteFault,
    }
}

/// For the bytes of each file and each budget an outcome is right.
pub fn some_outcome()
    ensures { (bytes : List ℕ) (models : ℕ) → (s : Ending) × (text : List ℕ) × IsOutcome bytes models s text }
{
    one_table();
    some_answer();
    mg_scope::laws::one_answer();
    each_class_has_an_answer();
}

/// For the bytes of a file and a budget at most one refusal is right, and with it no other outcome.
/// At most one status is right, since the budget alone says which lists are cut. Where it is at least 1
/// and at least the steps of each valued class, at most one outcome is right at all, and no list of it
/// is cut.
pub fn one_outcome()
    ensures refusal { (bytes text other : List ℕ) (models : ℕ) (s : Ending) → IsOutcome bytes models Status.Refused text → IsOutcome bytes models s other → (s ≡ Status.Refused) × (text ≡ other) }
    ensures status { (bytes text other : List ℕ) (models : ℕ) (s t : Ending) → IsOutcome bytes models s text → IsOutcome bytes models t other → s ≡ t }
    ensures enough { (bytes text other : List ℕ) (models : ℕ) (s t : Ending) → IsEnough bytes models → IsOutcome bytes models s text → IsOutcome bytes models t other → (s ≡ t) × (text ≡ other) }
    ensures whole { (bytes text : List ℕ) (models : ℕ) (s : Ending) → IsEnough bytes models → IsOutcome bytes models s text → s ≢ Status.Shortened }
{
    one_answer();
    one_table();
    one_line();
    one_fault();
    steps_are_enough();
    one_compiled_list();
    each_class_has_steps();
    cut_below_the_steps();
}
