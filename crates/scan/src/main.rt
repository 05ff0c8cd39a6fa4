// Lists a book and a letter, each a file that an argument names, on standard output. With one argument the letter is standard input.
#![tactic(auto)]

use std::env::{Env, FillError};
use std::fs::{File, Files};
use std::os::fd::AsRawFd;

const BOOK: usize = 1;

const LETTER: usize = 2;

// No name that the system opens is longer.
const LONGEST_NAME: usize = 4096;

// The number of standard error, the last of the standard descriptors.
const LAST_STANDARD: i32 = 2;

// Opens the file that an argument names, if it can be opened. A file that gets the number of a standard descriptor, because that was
// closed, would be taken for it: it counts as not opened.
fn opened(rt: &(impl Env + Files<File = File>), argument: usize) -> Option<File> {
    let mut name = [0u8; LONGEST_NAME];
    let length = rt.arg(argument, &mut name).ok()?;
    let path = str::from_utf8(&name[..length]).ok()?;
    let file = File::open(rt, path).ok()?;
    if file.as_raw_fd() <= LAST_STANDARD {
        return None;
    }
    Some(file)
}

// Whether there is an argument of this number. It may be longer than the name that is looked for.
fn is_given(rt: &impl Env, argument: usize) -> bool {
    let mut name = [0u8; 1];
    !matches!(rt.arg(argument, &mut name), Err(FillError::NotPresent))
}

fn main(rt: HostRuntime) {
    let Some(mut book) = opened(&rt, BOOK) else {
        let _ = rt.eprintln("the book could not be opened");
        return;
    };
    if !is_given(&rt, LETTER) {
        stream::list_two(
            &mut book,
            &mut rt.stdin(),
            &mut rt.stdout(),
            &mut rt.stderr(),
        );
        return;
    }
    let Some(mut letter) = opened(&rt, LETTER) else {
        let _ = rt.eprintln("the letter could not be opened");
        return;
    };
    stream::list_two(&mut book, &mut letter, &mut rt.stdout(), &mut rt.stderr());
}
