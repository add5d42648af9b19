//! The program `craig`: words and standard streams to the top call, and its status to the system.
#![tactic(auto)]

use craig_io::{StdSink, StdSource};
use craig_top::{Status, craig_top};
use std::env;
use std::io::ErrorKind;
use std::process::ExitCode;
use std::rt::Env;

fn main(rt: HostRuntime) -> ExitCode {
    let status = match words(&rt) {
        Ok(words) => {
            let mut source = StdSource::new(rt.stdin());
            let mut sink = StdSink::new(rt.stdout());
            craig_top(rt.alloc(), &words, &mut source, &mut sink)
        }
        Err(status) => status,
    };
    if let Some(message) = status.message() {
        // A run that stopped has its status also where standard error is gone.
        let _ = rt.eprintln(message);
    }
    ExitCode::from(status.number())
}

/// The words of the command line without the program's name. Words that are no text are refused as any others are.
fn words(rt: &(impl Env + AllocGlobal)) -> Result<Vec<String>, Status> {
    match env::args(rt) {
        Ok(args) => args
            .skip(1)
            .collect(rt.alloc())
            .map_err(|_| Status::NoMemory),
        Err(error) if error.kind() == ErrorKind::OutOfMemory => Err(Status::NoMemory),
        Err(_) => Err(Status::Usage),
    }
}
