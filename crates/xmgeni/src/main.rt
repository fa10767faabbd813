//! The command line of xmgeni: it gives the words, the files and standard output to the top call
//! of `rl_top`, and ends with the status that the call answers.
//!
//! The exit statuses are 0 done, 1 shortened, 2 words refused, 3 a file refused, 4 a read fault,
//! 5 a write fault, 6 want of memory. At status 2 a usage line goes to standard error.
#![tactic(auto)]

ghost use Rattle.std.specs.Prelude.{◌≡◌};
ghost use Rattle.std.specs.Process.{exit_status};
ghost use Rattle.xmgeni.specs.Statuses.{number_of};

use gr_io::{FileShelf, StdoutSink};
use gr_text::Name;
use rl_top::{Status, run_one};
use std::alloc::Global;
use std::env;
use std::io::ErrorKind;
use std::process::ExitCode;

/// The words behind the program's name, or the status where there is none to run with:
/// `WordsRefused` where a word isn't UTF-8, `Memory` where memory is wanting.
fn words(rt: &HostRuntime) -> Result<Vec<Name>, Status> {
    let given = match env::args(rt) {
        Ok(given) => given,
        Err(error) if error.kind() == ErrorKind::InvalidData => return Err(Status::WordsRefused),
        Err(_) => return Err(Status::Memory),
    };
    let mut words = Vec::new(rt.alloc());
    for word in given.skip(1) {
        let Ok(name) = Name::new(rt.alloc(), word.as_str()) else {
            return Err(Status::Memory);
        };
        if words.push(name).is_err() {
            return Err(Status::Memory);
        }
    }
    Ok(words)
}

/// Runs the words over the system's files and standard output.
fn run(rt: &HostRuntime) -> Status {
    match words(rt) {
        Ok(words) => run_one(
            rt.alloc(),
            words.as_slice(),
            &mut FileShelf::new(rt),
            &mut StdoutSink::new(rt),
        ),
        Err(status) => status,
    }
}

/// The exit status of a run that ended so.
fn exit_code(status: Status) -> ExitCode
    ensures { exit_status result ≡ number_of status }
{
    ExitCode::from(match status {
        Status::Done => 0,
        Status::Shortened => 1,
        Status::WordsRefused => 2,
        Status::Refused => 3,
        Status::ReadFault => 4,
        Status::WriteFault => 5,
        Status::Memory => 6,
    })
}

fn main(rt: HostRuntime) -> ExitCode {
    let status = run(&rt);
    if status == Status::WordsRefused {
        // What standard error answers changes no status.
        let _ = eprintln!(rt; "usage: xmgeni compile METAGRAMMAR [--models N]");
    }
    exit_code(status)
}
