// The bench as a program: a job's text, in the file that its argument names or on standard input, an answer to each line on standard output,
// and a sentence on standard error for each line that is not done. docs/JOBS.md says what a job is. A text of more than 262,144 bytes is refused as a
// whole by 13.
#![tactic(auto)]

mod fault;
mod say;
mod sentence;
mod show;
mod state;
mod steps;
mod walk;
mod words;

use say::{fail, say};
use show::lost;
use std::env::FillError;
use std::fs::File;
use std::io;
use std::io::{Read, Stderr, Stdout};
use std::rt::{Env, Files};

// The system's number for a name that is too long.
const NAME_TOO_LONG: i32 = 36;

fn main(rt: HostRuntime) {
    let out = rt.stdout();
    let err = rt.stderr();
    let mut path = [0u8; 4096];
    match rt.arg(2, &mut path) {
        Err(FillError::NotPresent) => {}
        _ => {
            say(
                err,
                b"bench: one job at a time: more than one file is named\n",
            );
            return;
        }
    }
    match rt.arg(1, &mut path) {
        Ok(length) => answer_file(&rt, out, err, &path[..length]),
        Err(FillError::NotPresent) => answer(out, err, &mut rt.stdin(), b"standard input"),
        Err(FillError::TooLong) => {
            fail(err, b"bench", io::Error::from_raw_os_error(NAME_TOO_LONG));
        }
    }
}

fn answer_file(files: &impl Files, out: Stdout, err: Stderr, name: &[u8]) {
    match open(files, name) {
        Ok(mut file) => answer(out, err, &mut file, name),
        Err(error) => unread(err, name, error),
    }
}

// A name that is no text names no file here.
fn open<F: Files>(files: &F, name: &[u8]) -> io::Result<F::File> {
    match std::str::from_utf8(name) {
        Ok(path) => File::open(files, path),
        Err(_) => Err(io::Error::from(io::ErrorKind::InvalidFilename)),
    }
}

// With the reason that the system gives.
fn unread(err: Stderr, name: &[u8], error: io::Error) {
    say(err, b"bench: ");
    fail(err, name, error);
}

fn answer<R: Read>(out: Stdout, err: Stderr, from: &mut R, name: &[u8]) {
    // One byte over the limit shows that a text is too long.
    let mut text = [0u8; 262145];
    let n = match input::read_full(from, &mut text) {
        Ok(n) => n,
        Err(error) => {
            unread(err, name, error);
            return;
        }
    };
    if n == text.len() {
        too_long(out, err);
        return;
    }
    if n == 0 {
        say(
            err,
            b"bench: the job is empty: it has no line (./bench --help says what a job is)\n",
        );
        return;
    }
    if let Err(error) = walk::each(out, err, &text[..n]) {
        lost(err, error);
    }
}

fn too_long(out: Stdout, err: Stderr) {
    match show::wrong_size(out) {
        Ok(()) => say(
            err,
            b"bench: refused 13: a job has at most 262,144 bytes, and this one has more\n",
        ),
        Err(error) => lost(err, error),
    }
}
