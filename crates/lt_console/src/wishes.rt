//! What the words of the command line ask for.
use lt_face::limits::MOST_WORKERS;
use std::alloc::{AllocError, Global};

/// What is asked for.
#[derive(Drop)]
pub struct Wishes {
    pub talks: bool,
    /// Whether scripts are looked through, and not run.
    pub lints: bool,
    pub workers: u32,
    pub files: Vec<String>,
    /// Whether how the program is called is to be written, and nothing else done; or its version.
    pub help: bool,
    pub version: bool,
    /// Whether a word isn't understood.
    pub unclear: bool,
}

// How many workers there are where nothing is said.
const USUAL: u32 = 4;

// How many workers a word names; none where it names no number of them.
fn count_of(word: &str) -> Option<u32> {
    match word.parse::<u32>() {
        Ok(count) if 1 <= count && count <= MOST_WORKERS as u32 => Some(count),
        _ => None,
    }
}

impl Wishes {
    // Takes a word. Whether a number of workers is to come next.
    fn take(&mut self, word: String) -> Result<bool, AllocError> {
        match word.as_str() {
            "--talk" => self.talks = true,
            "--lint" => self.lints = true,
            "--help" => self.help = true,
            "--version" => self.version = true,
            "--workers" => return Ok(true),
            text => {
                if text.starts_with("--") {
                    self.unclear = true;
                } else {
                    self.files.push(word)?;
                }
            }
        }
        Ok(false)
    }

    // Takes the number of workers.
    fn take_count(&mut self, word: &str) {
        match count_of(word) {
            Some(count) => self.workers = count,
            None => self.unclear = true,
        }
    }
}

/// What the words behind the program's name ask for.
pub fn wishes_of(alloc: Global, words: Vec<String>) -> Result<Wishes, AllocError> {
    let mut wishes = Wishes {
        talks: false,
        lints: false,
        workers: USUAL,
        files: Vec::new(alloc),
        help: false,
        version: false,
        unclear: false,
    };
    let mut counts = false;
    for word in words.into_iter().skip(1) {
        if counts {
            wishes.take_count(word.as_str());
            counts = false;
        } else {
            counts = wishes.take(word)?;
        }
    }
    if counts {
        wishes.unclear = true;
    }
    Ok(wishes)
}
