//! The program: hands its words, the files and both outputs to the top call, and ends with the status.
#![tactic(auto)]

use fab_io::{FileShelf, StreamSink};
use fab_top::run;
use std::alloc::AllocError;
use std::env::{self, FillError};
use std::io::ErrorKind;
use std::process::ExitCode;
use std::rt::Env;

/// What a runtime tells of its words, but for the program's own name, which is never looked at.
#[derive(Clone, Copy)]
struct BehindName<'r> {
    rt: &'r HostRuntime,
}

impl<'r> Env for BehindName<'r> {
    fn arg(&self, i: usize, buf: &mut [u8]) -> Result<usize, FillError> {
        match i.checked_add(1) {
            Some(number) => self.rt.arg(number, buf),
            None => Err(FillError::NotPresent),
        }
    }

    fn var(&self, name: &str, buf: &mut [u8]) -> Result<usize, FillError> {
        self.rt.var(name, buf)
    }

    fn var_at(&self, i: usize, buf: &mut [u8]) -> Result<usize, FillError> {
        self.rt.var_at(i, buf)
    }
}

/// The words behind the program's own name; none at all where one of them isn't UTF-8.
fn words_of(rt: &HostRuntime) -> Result<Vec<String>, AllocError> {
    let mut words = Vec::new(rt.alloc());
    match env::args(&(BehindName { rt }, rt.alloc())) {
        Ok(all) => {
            for word in all {
                words.push(word).map_err(|_| AllocError)?;
            }
        }
        Err(error) if error.kind() == ErrorKind::OutOfMemory => return Err(AllocError),
        Err(_) => {}
    }
    Ok(words)
}

fn main(rt: HostRuntime) -> ExitCode {
    let Ok(words) = words_of(&rt) else {
        return ExitCode::from(6);
    };
    let mut shelf = FileShelf::new(&rt);
    let mut out = StreamSink::new(rt.stdout());
    let mut err = StreamSink::new(rt.stderr());
    ExitCode::from(run(rt.alloc(), &words, &mut shelf, &mut out, &mut err))
}
