//! The text of one input, as it is fed: which lines the item that stands next has so far, and what is passed over behind an
//! error.
ghost use Rattle.std.specs.Prelude.{◌≡◌, ◌++◌, ℕ, List, OnOk};
ghost use Rattle.lt_model.specs.declared.syntax.Item.{Item as ScriptItem};
ghost use Rattle.lt_script.specs.Feed.{HasFed};

use crate::fed::Fed;
use crate::pieces::{push_all, push_quoted};
use crate::places::{Spot, allowed, find_fault, line_at};
use crate::tokens::{begins_with, ends_batch, ends_statement, is_blank};
use lt_face::NoMemory;
use memchr::{memchr, memchr_iter, memmem, memrchr};
use std::alloc::Global;

// The feed isn't asked of a shorter text that can't have ended.
const SHORT: usize = 512;

// Up to where lines are passed over.
#[derive(Clone, Copy)]
enum Passing {
    No,
    // a line that ends with a semicolon
    Item,
    // a line that ends with `commit;`
    Batch,
}

/// What an error is about, and where it stands.
#[derive(Drop)]
pub struct Told {
    pub spot: Spot,
    pub about: Vec<u8>,
}

/// One input, line by line.
#[derive(Drop)]
pub struct Script {
    pub fed: Fed,
    // The lines from that on in which the next item begins, and where in them the last one ended.
    text: Vec<u8>,
    from: usize,
    // The number of the first of these lines, as the feed counts.
    first: u64,
    // How many lines were read, how many of them before the feed's first, and how many of the feed's weren't read but added.
    read: u64,
    before: u64,
    added: u64,
    // How long the item's text was when the feed was last asked, and whether a batch may have ended since.
    asked: usize,
    closing: bool,
    passing: Passing,
    /// Whether a statement that stands alone was begun.
    pub alone: bool,
}

impl Script {
    /// Before the first line.
    pub fn new(alloc: Global) -> Script {
        Script {
            fed: Fed::new(alloc),
            text: Vec::new(alloc),
            from: 0,
            first: 1,
            read: 0,
            before: 0,
            added: 0,
            asked: 0,
            closing: false,
            passing: Passing::No,
            alone: false,
        }
    }

    /// The number of the line that was read last.
    pub fn line(&self) -> u64 {
        self.read
    }

    // The text behind the last item.
    fn rest(&self) -> &[u8] {
        let (_, rest) = self
            .text
            .as_slice()
            .split_at(self.from.min(self.text.len()));
        rest
    }

    /// The text of the item that the feed gave last.
    pub fn item_text(&self) -> &[u8] {
        let rest = self.rest();
        let (item, _) = rest.split_at(rest.len().saturating_sub(self.fed.kept()));
        item
    }

    /// Whether an item was begun, or lines are passed over.
    pub fn is_begun(&self) -> bool {
        self.is_passing() || self.is_inside()
    }

    /// Whether an item was begun.
    pub fn is_inside(&self) -> bool {
        !is_blank(self.rest())
    }

    /// Counts a line, and says whether it is passed over behind an error.
    pub fn passes(&mut self, line: &[u8]) -> bool {
        self.read = self.read.saturating_add(1);
        let ends = match self.passing {
            Passing::No => return false,
            Passing::Item => ends_statement(line),
            Passing::Batch => ends_batch(line),
        };
        self.before = self.read;
        if ends {
            self.passing = Passing::No;
        }
        true
    }

    /// Counts a line that is no part of the script: an empty one stands in its place.
    pub fn count_line(&mut self) -> Result<(), NoMemory> {
        self.read = self.read.saturating_add(1);
        if self.is_passing() {
            self.before = self.read;
            return Ok(());
        }
        self.push(b"\n")
    }

    /// Takes a line that was read.
    pub fn push(&mut self, line: &[u8]) -> Result<(), NoMemory>
        ensures { OnOk result ((bytes : List ℕ) (items : List ScriptItem) → HasFed self.old.fed bytes items → HasFed self.new.fed (bytes ++ line.now) items) }
    {
        self.fed.push(line)?;
        self.text.extend_from_slice(line)?;
        Ok(())
    }

    /// Takes a line that nobody wrote.
    pub fn push_added(&mut self, line: &[u8]) -> Result<(), NoMemory> {
        self.push(line)?;
        self.added = self.added.saturating_add(1);
        Ok(())
    }

    /// Whether the feed is to be asked behind this line. As it looks at all of an item's text, it is once the item may have
    /// ended there, or a long text is twice as long as it was.
    pub fn is_asked(&mut self, line: &[u8]) -> bool {
        let kept = self.fed.kept();
        if kept / 2 >= self.asked.max(SHORT) {
            self.asked = kept;
            return true;
        }
        if !begins_with(self.rest(), b"batch") {
            return memchr(b';', line).is_some();
        }
        if memmem::find(line, b"commit").is_some() {
            self.closing = true;
            return true;
        }
        let closes = self.closing && memchr(b';', line).is_some();
        if closes {
            self.closing = false;
        }
        closes
    }

    /// Goes behind the item that the feed gave last.
    pub fn go_on(&mut self) -> Result<(), NoMemory>
        ensures { self.new.fed ≡ self.old.fed }
    {
        self.asked = 0;
        self.closing = false;
        let from = self.text.len().saturating_sub(self.fed.kept());
        let (passed, _) = self.text.as_slice().split_at(from.min(self.text.len()));
        let whole = match memrchr(b'\n', passed) {
            Some(end) => end.saturating_add(1),
            None => 0,
        };
        let (lines, kept) = self.text.as_slice().split_at(whole.min(self.text.len()));
        self.first = self
            .first
            .saturating_add(memchr_iter(b'\n', lines).count() as u64);
        self.from = from.saturating_sub(whole);
        if kept.is_empty() {
            self.text.clear();
            return Ok(());
        }
        let kept = kept.to_vec(*self.text.allocator())?;
        self.text = kept;
        Ok(())
    }

    // What a fault is about whose token stands at this place: the token, and what is allowed there.
    fn about(
        &self,
        alloc: Global,
        token: &[u8],
        place: usize,
        code: u32,
    ) -> Result<Vec<u8>, NoMemory> {
        let mut about = Vec::new(alloc);
        if !token.is_empty() {
            push_quoted(&mut about, token)?;
        }
        if code == 2 {
            let words = allowed(alloc, &self.text, self.from, place)?;
            push_all(&mut about, &[b"; expected: ", &words])?;
        }
        Ok(about)
    }

    // Where the fault that the feed told stands, and what it is about.
    fn told(&self, alloc: Global, line: u64, code: u32) -> Result<Told, NoMemory> {
        let number = line.saturating_sub(self.first);
        let span = find_fault(alloc, &self.text, self.from, number)?;
        let (before, text) = line_at(&self.text, number);
        let (_, behind) = text.split_at(span.start.min(text.len()));
        let (token, _) = behind.split_at(span.end.saturating_sub(span.start).min(behind.len()));
        let about = self.about(alloc, token, before.saturating_add(span.start), code)?;
        let line = self.before.saturating_add(line).saturating_sub(self.added);
        let spot = Spot {
            line,
            column: (span.start as u64).saturating_add(1),
            code,
        };
        Ok(Told { spot, about })
    }

    /// Gives up the item that has a fault; where the fault stands that the feed told, and what it is about.
    pub fn refuse(&mut self, alloc: Global, line: u64, code: u32) -> Result<Told, NoMemory> {
        let told = self.told(alloc, line, code)?;
        self.give_up(alloc, true);
        Ok(told)
    }

    /// Where a place of the item's text stands that the feed gave last.
    pub fn spot_of(&self, place: usize, code: u32) -> Spot {
        let whole = self.from.saturating_add(place);
        let (before, _) = self.text.as_slice().split_at(whole.min(self.text.len()));
        let lines = memchr_iter(b'\n', before).count() as u64;
        let start = match memrchr(b'\n', before) {
            Some(end) => end.saturating_add(1),
            None => 0,
        };
        let line = self.before.saturating_add(self.first).saturating_add(lines);
        Spot {
            line: line.saturating_sub(self.added),
            column: (before.len().saturating_sub(start) as u64).saturating_add(1),
            code,
        }
    }

    /// Whether lines are passed over behind an error.
    pub fn is_passing(&self) -> bool {
        !matches!(self.passing, Passing::No)
    }

    /// Gives up the item that was begun. Behind an error the rest of it is passed over, where it hasn't ended with the last line.
    pub fn give_up(&mut self, alloc: Global, passes: bool) {
        let rest = self.rest();
        let batch = begins_with(rest, b"batch") && !self.alone;
        let ended = if batch {
            ends_batch(rest)
        } else {
            ends_statement(rest)
        };
        self.passing = match (passes && !ended, batch) {
            (false, _) => Passing::No,
            (true, true) => Passing::Batch,
            (true, false) => Passing::Item,
        };
        self.fed = Fed::new(alloc);
        self.text.clear();
        self.from = 0;
        self.first = 1;
        self.before = self.read;
        self.added = 0;
        self.asked = 0;
        self.closing = false;
        self.alone = false;
    }
}
