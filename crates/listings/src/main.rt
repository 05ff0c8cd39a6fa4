// Lists each file of its data/, a book with its length in front and then a letter, under the file's name, and says how the listing
// ended. At the end a book that cannot be read, a letter that cannot, and lines that cannot be written.
#![tactic(auto)]

use std::fs::{File, Files};
use std::io;
use std::io::{ErrorKind, Read, Write};

// What a name stands for: an open file, or none, which can be neither read nor written.
#[derive(Drop)]
struct Named<F>(Option<F>);

impl<F: Read> Read for Named<F> {
    fn read(&mut self, buf: &mut [u8]) -> io::Result<usize> {
        match &mut self.0 {
            Some(file) => file.read(buf),
            None => Err(io::Error::from(ErrorKind::NotFound)),
        }
    }
}

impl<F: Write> Write for Named<F> {
    fn write(&mut self, buf: &[u8]) -> io::Result<usize> {
        match &mut self.0 {
            Some(file) => file.write(buf),
            None => Err(io::Error::from(ErrorKind::NotFound)),
        }
    }

    fn flush(&mut self) -> io::Result<()> {
        Ok(())
    }
}

fn opened<R: Files>(rt: &R, name: &str) -> Named<R::File> {
    Named(File::open(rt, name).ok())
}

fn text(rt: &impl Print, words: &str) {
    let _ = rt.print(words);
}

fn heading(rt: &impl Print, name: &str) {
    text(rt, "-- ");
    text(rt, name);
    text(rt, "\n");
}

// Lists a file to a writer.
fn listed_to<R: Files + Print, W: Write>(rt: &R, name: &str, to: &mut W) {
    stream::list(&mut opened(rt, name), to, &mut io::writer(rt));
}

fn listed<R: Files + Print>(rt: &R, name: &str) {
    heading(rt, name);
    listed_to(rt, name, &mut io::writer(rt));
}

// Lists a book and a letter that are files of their own.
fn two<R: Files + Print>(rt: &R, book_name: &str, letter_name: &str) {
    let mut book = opened(rt, book_name);
    let mut letter = opened(rt, letter_name);
    stream::list_two(
        &mut book,
        &mut letter,
        &mut io::writer(rt),
        &mut io::writer(rt),
    );
}

// Document 01's letters, and how input can be cut.
fn small<R: Files + Print>(rt: &R) {
    let names = [
        "example",
        "least_9_most_1",
        "no_hit",
        "empty_letter",
        "cut_before_the_length",
        "cut_in_the_length",
        "cut_after_the_length",
        "cut_in_the_book",
        "cut_after_a_sound_book",
        "longest_length",
    ];
    for name in names {
        listed(rt, name);
    }
}

// Letters of several parts.
fn long<R: Files + Print>(rt: &R) {
    let names = [
        "keyword_across_4096",
        "gap_across_4096",
        "hits_around_4096",
        "letter_4095",
        "letter_4096",
        "letter_4097",
        "letter_8192",
        "many_hits",
    ];
    for name in names {
        listed(rt, name);
    }
}

// A folder can be opened and not read; a file that is not there can be neither read nor written.
fn failing<R: Files + Print>(rt: &R) {
    heading(rt, "book in a file, letter in a file");
    two(rt, "book", "letter");
    heading(rt, "a book of 65536 bytes");
    two(rt, "book_too_long", "letter");
    heading(rt, "a folder as book");
    two(rt, "folder", "letter");
    heading(rt, "a folder as letter");
    two(rt, "book", "folder");
    heading(rt, "no file of this name");
    listed_to(rt, "missing", &mut io::writer(rt));
    heading(rt, "lines that cannot be written");
    listed_to(rt, "example", &mut opened(rt, "missing"));
}

fn main(rt: HostRuntime) {
    small(&rt);
    long(&rt);
    failing(&rt);
}
