//! The program: what each command writes to standard output, and the status that it ends with.
#![tactic(auto)]

use edge_io::standard::{StdSink, StdSource};
use edge_io::status::Status;
use edge_io::stream::NoGate;
use std::alloc::{AllocError, Global};
use std::process::ExitCode;
use std::rt::Env;
use std::{env, io};
use top_call::top::cbtc_top;

/// The words after the program's name. Words that cannot be read are none.
fn words_of(rt: &(impl Env + Alloc<A = Global>)) -> Result<Vec<String>, AllocError> {
    let mut words = Vec::new(rt.alloc());
    match env::args(rt) {
        Ok(all) => {
            let mut all = all;
            let _ = all.next();
            for word in all {
                words.push(word)?;
            }
            Ok(words)
        }
        Err(error) => {
            if error.kind() == io::ErrorKind::OutOfMemory {
                return Err(AllocError);
            }
            Ok(words)
        }
    }
}

fn main(rt: HostRuntime) -> ExitCode {
    let mut src = StdSource::new(rt.stdin());
    let mut sink = StdSink::new(rt.stdout());
    let status = match words_of(&rt) {
        Ok(words) => cbtc_top(rt.alloc(), &words, &mut src, &mut sink, &NoGate),
        Err(_) => Status::Memory,
    };
    ExitCode::from(status.code())
}
