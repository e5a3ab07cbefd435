//! The program: a command and its words over the files of the current folder, with its text on standard output. What a command takes besides
//! comes from standard input.
#![tactic(auto)]

mod arguments;

use arguments::words_after_name;
use inc_cmd::run_plain;
use inc_real::{FolderShelf, RealClock, StdSink, StdSource};
use inc_words::Status;
use std::process::ExitCode;

fn main(rt: HostRuntime) -> ExitCode {
    let Ok(words) = words_after_name(&rt) else {
        return ExitCode::from(Status::OUT_OF_MEMORY.0);
    };
    let mut shelf = FolderShelf::new(&rt);
    let mut input = StdSource::new(rt.reader());
    let mut out = StdSink::new(&rt);
    let clock = RealClock::new(&rt);
    let status = run_plain(
        rt.alloc(),
        words.as_slice(),
        &mut shelf,
        &mut input,
        &mut out,
        &clock,
    );
    ExitCode::from(status.0)
}
