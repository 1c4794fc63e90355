// The program: the words of the command line and the standard streams, handed to the top call.
// Contract: none of its own; it ends with the status that `run` answers.
#![tactic(auto)]

use source_sink::{StdSink, StdSource, write_all};
use std::env;
use std::io::ErrorKind;
use std::process::ExitCode;
use std::rt::Env;
use steal_pool::OpenGate;
use timetable::{Status, run};

/// The words behind the program's name. Where one is no text, none, which the program doesn't take either.
fn words(rt: &(impl Env + AllocGlobal)) -> Result<Vec<String>, Status> {
    let mut words = Vec::new(rt.alloc());
    match env::args(rt) {
        Ok(all) => {
            for word in all.skip(1) {
                if words.push(word).is_err() {
                    return Err(Status::NoMemory);
                }
            }
            Ok(words)
        }
        Err(fault) if fault.kind() == ErrorKind::InvalidData => Ok(words),
        Err(_) => Err(Status::NoMemory),
    }
}

fn main(rt: HostRuntime) -> ExitCode {
    let mut source = StdSource::new(rt.stdin());
    let mut out = StdSink::new(rt.stdout());
    let mut err = StdSink::new(rt.stderr());
    let status = match words(&rt) {
        Ok(words) => run(
            &rt,
            rt.alloc(),
            &words,
            &mut source,
            &mut out,
            &mut err,
            &OpenGate,
        ),
        Err(status) => {
            let _ = write_all(&mut err, b"no memory\n");
            status
        }
    };
    ExitCode::from(status.number())
}
