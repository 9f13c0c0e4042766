//! `plantctl`, the controller of a television plant's routers. All that it does is `run` of `commands`: `main` hands it the
//! words of the command line, the real files, the net over sockets and the standard output.
#![tactic(auto)]

use commands::{end_without_memory, run, run_quiet};
use ctl_io::{StdFiles, StdOut};
use ctl_net::{OpenGate, StdNet};
use std::io::ErrorKind;
use std::process::ExitCode;
use std::rt::Env;
use std::{env, io};

fn main(rt: HostRuntime) -> ExitCode {
    let alloc = rt.alloc();
    let mut files = StdFiles::new(&rt);
    let mut net = StdNet::new(alloc, &rt);
    let mut out = StdOut::new(&rt);
    let status = match arguments(&rt) {
        Ok(words) => run(
            &rt, alloc, &words, &mut files, &mut net, &OpenGate, &mut out,
        ),
        Err(error) if error.kind() == ErrorKind::OutOfMemory => end_without_memory(&mut out),
        // Arguments that are no text have no form, as no words have none.
        Err(_) => run_quiet(alloc, &[], &mut files, &mut out),
    };
    ExitCode::from(status)
}

// The words of the command line, without the program's name.
fn arguments<R: Env + AllocGlobal>(rt: &R) -> io::Result<Vec<String>> {
    let mut words = Vec::new(rt.alloc());
    for word in env::args(rt)?.skip(1) {
        words.push(word)?;
    }
    Ok(words)
}
