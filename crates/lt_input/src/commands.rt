//! Commands: lines that begin with a point.
use lt_face::limits::MOST_WORKERS;
use std::str;

/// A command.
#[derive(Clone, Copy)]
pub enum Command<'a> {
    Help,
    Schema { relation: Option<&'a str> },
    Read { file: &'a str },
    Import { file: &'a str, relation: &'a str },
    Export { relation: &'a str, file: &'a str },
    Dump { file: Option<&'a str> },
    Time { on: bool },
    Workers { count: u32 },
    Forget,
    Cancel,
    Quit,
    /// What stands behind the command's name, and the column where that begins, from 0.
    Explain { text: &'a str, column: usize },
}

/// Why a line is no command: no such one is there, or its arguments are others.
#[derive(Clone, Copy)]
pub enum NoCommand {
    Unknown,
    Argument,
}

impl NoCommand {
    /// The code that is told.
    pub fn code(self) -> u32 {
        match self {
            NoCommand::Unknown => 30,
            NoCommand::Argument => 31,
        }
    }
}

// The commands that may stand without arguments.
const LONE: [(&str, Command<'static>); 6] = [
    (".help", Command::Help),
    (".schema", Command::Schema { relation: None }),
    (".dump", Command::Dump { file: None }),
    (".forget", Command::Forget),
    (".cancel", Command::Cancel),
    (".quit", Command::Quit),
];

// The names of those that may not.
const OTHERS: [&str; 6] = [
    ".read", ".import", ".export", ".time", ".workers", ".explain",
];

// Whether this is the name of a command that may not.
fn has_arguments(name: &str) -> bool {
    for known in &OTHERS {
        if *known == name {
            return true;
        }
    }
    false
}

// The command of this name that has no arguments.
fn lone(name: &str) -> Result<Command<'static>, NoCommand> {
    for (known, command) in &LONE {
        if *known == name {
            return Ok(*command);
        }
    }
    if has_arguments(name) {
        return Err(NoCommand::Argument);
    }
    Err(NoCommand::Unknown)
}

// The command that has how long items take told, or not.
fn timed(word: &str) -> Result<Command<'static>, NoCommand> {
    match word {
        "on" => Ok(Command::Time { on: true }),
        "off" => Ok(Command::Time { on: false }),
        _ => Err(NoCommand::Argument),
    }
}

// The command that sets how many workers run a batch.
fn worked(word: &str) -> Result<Command<'static>, NoCommand> {
    match word.parse::<u32>() {
        Ok(count) if 1 <= count && count <= MOST_WORKERS as u32 => Ok(Command::Workers { count }),
        _ => Err(NoCommand::Argument),
    }
}

// The command of this name with one argument.
fn with_one<'a>(name: &str, word: &'a str) -> Result<Command<'a>, NoCommand> {
    match name {
        ".schema" => Ok(Command::Schema {
            relation: Some(word),
        }),
        ".read" => Ok(Command::Read { file: word }),
        ".dump" => Ok(Command::Dump { file: Some(word) }),
        ".time" => timed(word),
        ".workers" => worked(word),
        name => Err(refused(name)),
    }
}

// The command of this name with two arguments.
fn with_two<'a>(name: &str, first: &'a str, second: &'a str) -> Result<Command<'a>, NoCommand> {
    match name {
        ".import" => Ok(Command::Import {
            file: first,
            relation: second,
        }),
        ".export" => Ok(Command::Export {
            relation: first,
            file: second,
        }),
        name => Err(refused(name)),
    }
}

// Why the command of this name isn't taken with its arguments.
fn refused(name: &str) -> NoCommand {
    match lone(name) {
        Err(why) => why,
        Ok(_) => NoCommand::Argument,
    }
}

// The command that takes the rest of its line as it stands.
fn explained(line: &str) -> Option<Command<'_>> {
    let behind = line.strip_prefix(".explain ")?;
    let text = behind.trim_start();
    let column = line.len().saturating_sub(text.len());
    let text = text.trim_end();
    if text.is_empty() {
        return None;
    }
    Some(Command::Explain { text, column })
}

/// The command that a line holds.
pub fn command_of(line: &[u8]) -> Result<Command<'_>, NoCommand> {
    let Ok(text) = str::from_utf8(line) else {
        return Err(NoCommand::Argument);
    };
    if let Some(told) = explained(text) {
        return Ok(told);
    }
    let mut words = text.split_whitespace();
    let name = words.next().unwrap_or("");
    match (words.next(), words.next(), words.next()) {
        (None, _, _) => lone(name),
        (Some(word), None, _) => with_one(name, word),
        (Some(first), Some(second), None) => with_two(name, first, second),
        _ => Err(refused(name)),
    }
}
