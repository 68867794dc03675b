//! How any program is started, by one that ends with the number of its words.

ghost use Rattle.std.specs.Prelude.{⊤};

use balise_devices::arguments;
use balise_program::{ArgsFault, Counted, Exit, Program, Refusal, launch, start};
use std::alloc::Global;
use std::env::Args;
use std::io;
use std::io::{BufWriter, ErrorKind, Read, Write};
use std::process::Abort;

/// It ends with 1 where it has its name alone, and with 2 where there are more words. Without a word it is out of memory.
struct CountsWords;

impl Program for CountsWords {
    type Asked = u8;

    ghost asks = { λ words asked. ⊤ };

    ghost works = { λ remaining contents asked reader reader' writer writer' exit. ⊤ };

    fn ask<'a>(_alloc: Global, words: &'a [&'a str]) -> Result<u8, ArgsFault> {
        match words.len() {
            0 => Err(ArgsFault::Memory),
            1 => Ok(1),
            _ => Ok(2),
        }
    }

    fn work<R: Read, W: Write + Drop>(
        _alloc: Global,
        asked: u8,
        _reader: &mut Counted<R>,
        _writer: &mut Buffered<W>,
    ) -> Exit {
        Exit {
            code: asked,
            fault: None,
        }
    }
}

type Buffered<W> = Counted<BufWriter<W>>;

/// The code, the fault and the text for errors that a program ends with.
type End = (u8, Option<Refusal>, &'static str);

const NO_MEMORY: End = (3, Some(Refusal::OutOfMemory), "fault 30 OutOfMemory\n");

const BAD_TEXT: End = (64, None, "error: an argument is not UTF-8\n");

/// Words, and how they end.
const ROWS: &[(&[&str], End)] = &[
    (&["counts"], (1, None, "")),
    (&["counts", "--more"], (2, None, "")),
    (&[], NO_MEMORY),
];

/// The words that a program is started with, or those of the system, or why they can't be had.
enum Words<'a> {
    Given(&'a [&'a str]),
    OfSystem(io::Result<Args>),
}

fn buffered(rt: &impl Abort, alloc: Global) -> Buffered<Vec<u8>> {
    Counted::new(BufWriter::new(alloc, Vec::new(alloc)).expect(rt, "memory"))
}

fn exit_of(rt: &impl Abort, alloc: Global, words: Words, errors: &mut Counted<Vec<u8>>) -> Exit {
    let mut reader = Counted::new(b"".as_slice());
    let mut writer = buffered(rt, alloc);
    match words {
        Words::Given(words) => {
            start::<CountsWords, _, _, _>(alloc, words, &mut reader, &mut writer, errors)
        }
        Words::OfSystem(words) => {
            launch::<CountsWords, _, _, _>(alloc, words, &mut reader, &mut writer, errors)
        }
    }
}

/// That the program ends so with these words.
fn check_end(rt: &impl Abort, alloc: Global, words: Words, end: &End) {
    let mut errors = Counted::new(Vec::new(alloc));
    let exit = exit_of(rt, alloc, words, &mut errors);
    assert!(rt; (exit.code == end.0) & (exit.fault == end.1));
    assert!(rt; errors.inner().as_slice() == end.2.as_bytes());
}

#[test]
fn words_are_asked_and_done(rt: HostRuntime) {
    for (words, end) in ROWS.iter() {
        check_end(&rt, rt.alloc(), Words::Given(*words), end);
    }
}

#[test]
fn words_of_the_system(rt: HostRuntime) {
    for (words, end) in ROWS.iter() {
        let words = arguments(rt.alloc(), *words).expect(&rt, "memory");
        check_end(&rt, rt.alloc(), Words::OfSystem(Ok(words)), end);
    }
}

/// That the program ends so, without a run, where the words of the system can't be had for this reason.
fn check_no_words(rt: &impl Abort, alloc: Global, kind: ErrorKind, end: &End) {
    check_end(rt, alloc, Words::OfSystem(Err(io::Error::from(kind))), end);
}

#[test]
fn no_words(rt: HostRuntime) {
    check_no_words(&rt, rt.alloc(), ErrorKind::OutOfMemory, &NO_MEMORY);
    check_no_words(&rt, rt.alloc(), ErrorKind::InvalidInput, &BAD_TEXT);
    check_no_words(&rt, rt.alloc(), ErrorKind::InvalidData, &BAD_TEXT);
}
