// The judge of borders as a program: the words of the command line and the standard streams, handed to the top call.
// Contract: none of its own; it ends with the status that `run` answers.
#![tactic(auto)]

use border_answer::{Status, run};
use source_sink::{StdSink, StdSource, write_all};
use std::env;
use std::io::ErrorKind;
use std::process::ExitCode;
use std::rt::Env;

/// The words behind the program's name. A word that is no text stands for one that is none here either.
fn words(rt: &(impl Env + AllocGlobal)) -> Result<Vec<String>, Status> {
    let mut words = Vec::new(rt.alloc());
    match env::args(rt) {
        Ok(all) => {
            for word in all.skip(1) {
                if words.push(word).is_err() {
                    return Err(Status::NoMemory);
                }
            }
            Ok(words)
        }
        Err(fault) if fault.kind() == ErrorKind::InvalidData => {
            let Ok(word) = String::from_str(rt.alloc(), "no text") else {
                return Err(Status::NoMemory);
            };
            if words.push(word).is_err() {
                return Err(Status::NoMemory);
            }
            Ok(words)
        }
        Err(_) => Err(Status::NoMemory),
    }
}

fn main(rt: HostRuntime) -> ExitCode {
    let mut source = StdSource::new(rt.stdin());
    let mut out = StdSink::new(rt.stdout());
    let mut err = StdSink::new(rt.stderr());
    let status = match words(&rt) {
        Ok(words) => run(rt.alloc(), &words, &mut source, &mut out, &mut err),
        Err(status) => {
            let _ = write_all(&mut err, b"no memory\n");
            status
        }
    };
    ExitCode::from(status.number())
}
