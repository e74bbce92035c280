//! The next programs of a batch, and which of them are run ahead, by what those before them in the round may write as far as constants
//! tell. It chooses what is run ahead; no clause speaks of it.
use crate::ahead::Task;
use crate::ties::bit;
use lt_face::key::{END, Key};
use lt_face::memory::NoMemory;
use lt_model::normal::{Atom, Stmt, Term};
use lt_query::{Planned, body_of};
use std::alloc::Global;
use std::sync::Arc;

/// A round has so many programs at most.
pub(crate) const ROUND: usize = 64;

/// The bits of cells are in so many words, so that few of those that a round's programs write share one.
const WORDS: usize = 64;

/// An odd number with bits all over, by which a product has bits of all of a number in its first ones.
const MIX: Key = 0x9E37_79B9_7F4A_7C15_F39C_C060_5CED_C835;

/// How many programs a round has; which of them are run ahead, how many of these may be touched before their turn, and by how many threads
/// they are run.
#[derive(Drop)]
pub(crate) struct Round {
    pub count: usize,
    pub tasks: Vec<Task>,
    pub tries: usize,
    pub threads: usize,
}

impl Round {
    /// No program is run ahead.
    pub(crate) fn none(alloc: Global) -> Round {
        Round {
            count: 1,
            tasks: Vec::new(alloc),
            tries: 0,
            threads: 0,
        }
    }

    /// Takes the program at the place to be run ahead, if it is free, or may be touched and not too many are tried yet; one that is wide only
    /// where runs are kept. Answers whether it was taken.
    fn takes(
        &mut self,
        place: usize,
        hang: Hang,
        tries: usize,
        keeps: bool,
    ) -> Result<bool, NoMemory> {
        let is_try = !matches!(hang, Hang::Free);
        let is_wide = matches!(hang, Hang::Wide);
        if is_try && (self.tries >= tries || (is_wide && !keeps)) {
            return Ok(false);
        }
        if is_try {
            self.tries = self.tries.saturating_add(1);
        }
        self.tasks.push(Task {
            place,
            keeps: is_wide,
        })?;
        Ok(true)
    }
}

/// How a program hangs on those before it in the round: none of them writes what it reads, as far as constants tell; it reads what
/// they may write by constants alone; or else.
#[derive(Clone, Copy)]
enum Hang {
    Free,
    Narrow,
    Wide,
}

/// The one that hangs more.
fn more(one: Hang, other: Hang) -> Hang {
    match (one, other) {
        (Hang::Wide, _) | (_, Hang::Wide) => Hang::Wide,
        (Hang::Narrow, _) | (_, Hang::Narrow) => Hang::Narrow,
        _both => Hang::Free,
    }
}

/// What the programs of a round may write so far: the relations by their numbers modulo 64, and for each column the cells, each by a bit.
#[derive(Drop)]
struct Written {
    relations: u64,
    cells: [u64; WORDS],
}

/// The place of a cell's bit, in which END stands for any cell. Two cells may share it: then a program waits for its turn in vain.
fn place_of(relation: u32, column: usize, cell: Key) -> u32 {
    let named = (relation as Key)
        .wrapping_mul(64)
        .wrapping_add(column as Key);
    let mixed = (cell ^ named.wrapping_mul(MIX)).wrapping_mul(MIX);
    ((mixed >> 116) % 4096) as u32
}

impl Written {
    fn new() -> Written {
        Written {
            relations: 0,
            cells: [0; WORDS],
        }
    }

    fn put(&mut self, relation: u32, column: usize, cell: Key) {
        let place = place_of(relation, column, cell);
        self.cells[place as usize / 64 % WORDS] |= 1 << (place % 64);
    }

    fn has(&self, relation: u32, column: usize, cell: Key) -> bool {
        let place = place_of(relation, column, cell);
        self.cells[place as usize / 64 % WORDS] & (1 << (place % 64)) != 0
    }

    /// Notes the rows that a head has, and those with the same key, which they displace: from `keys` on their cells may be any.
    fn note_head(&mut self, head: &Atom, keys: usize) {
        let terms = head.terms.as_slice();
        self.relations |= bit(head.relation);
        for i in 0..terms.len() {
            match terms[i] {
                Term::Cell(cell) if i < keys => self.put(head.relation, i, cell),
                _any => self.put(head.relation, i, END),
            }
        }
    }

    /// Notes what a statement may write.
    fn note(&mut self, stmt: &Stmt) {
        match stmt {
            Stmt::Insert { head, keys, .. } => self.note_head(head, *keys as usize),
            Stmt::Delete { head, .. } => self.note_head(head, head.terms.len()),
            Stmt::Replace {
                gone,
                come,
                keys,
                ..
            } => {
                self.note_head(gone, gone.terms.len());
                self.note_head(come, *keys as usize);
            }
            _reading => {}
        }
    }

    /// Notes what a program may write.
    fn note_all(&mut self, prog: &[Stmt]) {
        for stmt in prog {
            self.note(stmt);
        }
    }

    /// How that hangs which reads rows of these first terms.
    fn hang_of(&self, atom: &Atom, count: usize) -> Hang {
        if self.relations & bit(atom.relation) == 0 {
            return Hang::Free;
        }
        let terms = atom.terms.as_slice();
        let mut hang = Hang::Wide;
        for i in 0..terms.len().min(count) {
            if let Term::Cell(cell) = terms[i] {
                if !self.has(atom.relation, i, END) && !self.has(atom.relation, i, cell) {
                    return Hang::Free;
                }
                hang = Hang::Narrow;
            }
        }
        hang
    }

    /// How that hangs which reads all of the atoms.
    fn hang_of_atoms(&self, atoms: &[Atom]) -> Hang {
        let mut hang = Hang::Free;
        for atom in atoms {
            hang = more(hang, self.hang_of(atom, atom.terms.len()));
        }
        hang
    }

    /// How that hangs which displaces rows by the key of a head, if it has value columns.
    fn hang_of_head(&self, head: &Atom, keys: u32) -> Hang {
        if keys as usize == head.terms.len() {
            return Hang::Free;
        }
        self.hang_of(head, keys as usize)
    }

    /// How a statement hangs.
    fn hang_of_stmt(&self, stmt: &Stmt) -> Hang {
        let body = body_of(stmt);
        let atoms = self.hang_of_atoms(body.atoms.as_slice());
        let absents = self.hang_of_atoms(body.absents.as_slice());
        let coming = match stmt {
            Stmt::Insert { head, keys, .. } => self.hang_of_head(head, *keys),
            Stmt::Replace { come, keys, .. } => self.hang_of_head(come, *keys),
            _plain => Hang::Free,
        };
        more(coming, more(atoms, absents))
    }

    /// How a program hangs.
    fn hang_of_all(&self, prog: &[Stmt]) -> Hang {
        let mut hang = Hang::Free;
        for stmt in prog {
            hang = more(hang, self.hang_of_stmt(stmt));
        }
        hang
    }
}

/// The next round of these programs: so many at most. With enough runs ahead it ends where a program would wait.
pub(crate) fn round_of(
    alloc: Global,
    progs: &[Arc<Planned>],
    at_most: usize,
    enough: usize,
    tries: usize,
    keeps: bool,
) -> Result<Round, NoMemory> {
    let mut round = Round::none(alloc);
    let mut written = Written::new();
    let count = progs.len().min(at_most);
    for place in 0..count {
        let prog = progs[place].statements();
        let hang = written.hang_of_all(prog);
        if !round.takes(place, hang, tries, keeps)? && round.tasks.len() >= enough {
            round.count = place;
            return Ok(round);
        }
        written.note_all(prog);
    }
    round.count = count;
    Ok(round)
}
