//! What single lines say.
ghost use Rattle.std.specs.Prelude.{◌≡◌, ◌++◌, codes, decimal, All, IsTrue, IfSome};
ghost use Rattle.lt_picture.specs.Lines.{spaced, header_line, entry_line, version_line, IsNameCode, IsRun, IsRunOf};

use itoa::Buffer;

/// The first line of a trace: the batch's number, how many programs it has, how many entries follow.
#[derive(Clone, Copy)]
pub struct Header {
    pub batch: u32,
    pub programs: u32,
    pub entries: u32,
}

/// The number that a word spells as it is written: no sign, no zeros before it.
pub fn number_of(word: &str) -> Option<u32>
    ensures { IfSome result (λ number. word.now ≡ decimal number) }
{
    let number = word.parse::<u32>().ok()?;
    let mut buffer = Buffer::new();
    let text = buffer.format(number);
    if text == word { Some(number) } else { None }
}

/// What stands before the first space, and behind it.
fn words_of(line: &str) -> Option<(&str, &str)>
    ensures { IfSome result (λ words. line.now ≡ spaced words.0.now words.1.now) }
{
    line.split_once(' ')
}

/// What stands behind the word `trace`.
fn behind_trace(line: &str) -> Option<&str>
    ensures { IfSome result (λ rest. line.now ≡ codes "trace " ++ rest.now) }
{
    line.strip_prefix("trace ")
}

/// The first line of a trace, where the line is one.
pub fn header_of(line: &str) -> Option<Header>
    ensures { IfSome result (λ header. line.now ≡ header_line header) }
{
    let (batch, rest) = words_of(behind_trace(line)?)?;
    let (programs, entries) = words_of(rest)?;
    let batch = number_of(batch)?;
    let programs = number_of(programs)?;
    let entries = number_of(entries)?;
    Some(Header {
        batch,
        programs,
        entries,
    })
}

/// The worker and the code of an entry, where the line is one.
pub fn entry_words(line: &str) -> Option<(u32, u32)>
    ensures { IfSome result (λ words. line.now ≡ entry_line words.0 words.1) }
{
    let (worker, code) = words_of(line)?;
    let worker = number_of(worker)?;
    let code = number_of(code)?;
    Some((worker, code))
}

/// The number of the batch that a line of a report ends, where it ends one.
pub fn version_of(line: &str) -> Option<u32>
    ensures { IfSome result (λ batch. line.now ≡ version_line batch) }
{
    number_of(line.strip_prefix("version ")?)
}

/// Whether a word can be a program's name: it has small letters, digits and `_` alone.
fn is_name(word: &str) -> bool
    ensures { IsTrue result → All IsNameCode word.now }
{
    !word.is_empty()
        && word.bytes().all(|byte| byte == b'_'
            || byte.is_ascii_lowercase()
            || byte.is_ascii_digit())
}

/// Whether this is what is said behind its name of a program that ran.
fn is_run(reply: &str) -> bool
    ensures { IsTrue result → IsRun reply.now }
{
    if reply == "done" {
        return true;
    }
    match words_of(reply) {
        Some((word, statement)) => word == "refused" && number_of(statement).is_some(),
        None => false,
    }
}

/// The name of the program that ran, where a line of a report that is no row says that one did.
pub fn run_of(line: &str) -> Option<&str>
    ensures line { IfSome result (λ name. IsRunOf name.now line.now) }
    ensures plain { IfSome result (λ name. All IsNameCode name.now) }
{
    let (name, reply) = words_of(line)?;
    if is_name(name) && is_run(reply) {
        Some(name)
    } else {
        None
    }
}

/// How many rows follow a line of a report that is no row itself: those that a program printed, or those that are shown.
pub fn rows_behind(line: &str) -> u32 {
    if line.starts_with("print ") || line.starts_with("show ") {
        match line.rsplit_once(' ') {
            Some((_, count)) => number_of(count).unwrap_or(0),
            None => 0,
        }
    } else {
        0
    }
}
