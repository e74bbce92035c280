//! Where lines come from: standard input, and files that are read before it goes on.
use crate::script::Script;
use lt_face::NoMemory;
use memchr::memchr;
use std::alloc::Global;
use std::io::{self, BufRead, BufReader, Read};

/// Standard input, or a file.
#[derive(Drop)]
pub enum Origin<I: Drop, F: Drop> {
    Standard(I),
    File(F),
}

impl<I: Read + Drop, F: Read + Drop> Read for Origin<I, F> {
    fn read(&mut self, buf: &mut [u8]) -> io::Result<usize> {
        match self {
            Origin::Standard(input) => input.read(buf),
            Origin::File(file) => file.read(buf),
        }
    }
}

/// What is read line by line, and what of it was fed so far.
#[derive(Drop)]
pub struct Input<I: Drop, F: Drop> {
    reader: BufReader<Origin<I, F>>,
    pub script: Script,
    pub is_standard: bool,
}

/// Why a line wasn't read.
#[derive(Clone, Copy)]
pub enum InputError {
    NoMemory,
    Failed,
}

impl<I: Read + Drop, F: Read + Drop> Input<I, F> {
    /// Before the first line.
    pub fn new(alloc: Global, origin: Origin<I, F>) -> Result<Input<I, F>, NoMemory> {
        let is_standard = matches!(&origin, Origin::Standard(_));
        match BufReader::new(alloc, origin) {
            Ok(reader) => Ok(Input {
                reader,
                script: Script::new(alloc),
                is_standard,
            }),
            Err(_) => Err(NoMemory),
        }
    }

    /// Whether the next line is at hand, so that it can be had without a wait.
    pub fn is_at_hand(&self) -> bool {
        memchr(b'\n', self.reader.buffer()).is_some()
    }

    /// Puts the next line in place of the last, with its line feed, and says whether there is one.
    pub fn next_line(&mut self, line: &mut Vec<u8>) -> Result<bool, InputError> {
        line.clear();
        match self.reader.read_until(b'\n', line) {
            Ok(count) => Ok(count > 0),
            Err(error) if error.kind() == io::ErrorKind::OutOfMemory => Err(InputError::NoMemory),
            Err(_) => Err(InputError::Failed),
        }
    }
}

/// Has this be read before the inputs that are there.
pub fn push_input<I: Read + Drop, F: Read + Drop>(
    alloc: Global,
    inputs: &mut Vec<Input<I, F>>,
    origin: Origin<I, F>,
) -> Result<(), NoMemory> {
    let input = Input::new(alloc, origin)?;
    inputs.push(input)?;
    Ok(())
}
