//! Statements by their forms: a text that is an earlier one's but for its constants isn't read anew.
ghost use Rattle.std.specs.Prelude.{◌≡◌, ◌≤◌, IfOk};
ghost use Rattle.std.specs.Arc.{arc_value};
ghost use Rattle.lt_model.specs.Forms.{IsFormOf, cells_of, filled, numbered};
ghost use Rattle.lt_script.specs.Forms.{IsRead, Took};

use crate::blanking::blanked;
use crate::fitting::{Behind, fitting};
use crate::outline::outline_of;
use crate::slots::{Slot, slots_of};
use lt_face::memory::NoMemory;
use lt_model::form::{CellList, Form, Wording};
use lt_model::syntax::Statement;
use std::alloc::Global;
use std::marker::Model;
use std::sync::Arc;

// Forms lie in sets of so many, and there are so many sets.
const WAYS: usize = 4;

const SETS: usize = 64;

// For how many texts that aren't found an outline is taken, and for how many more where one is found by it.
const MOST_CREDIT: usize = 64;

const EARNED: usize = 8;

// The longest text of which a form is made.
const LONGEST_TEXT: usize = 1024;

/// A form, with the places of its constants in its text and how many line feeds the text has: what each text of the form is read as.
#[derive(Drop)]
pub struct Reading {
    form: Arc<Form>,
    slots: Vec<Slot>,
    lines: u64,
}

impl Model for Reading {
    ghost use Rattle.std.specs.Prelude.{ℕ, List};
    ghost use Rattle.std.specs.Arc.{arc_value};
    ghost use Rattle.lt_model.specs.declared.syntax.Statement.{Statement};
    ghost use Rattle.lt_script.specs.Forms.{IsKnown};

    ghost Value = { List ℕ × Statement };

    ghost view = { λ r. arc_value r.form };

    ghost invariant = { λ r. IsKnown (arc_value r.form) r.slots.items r.lines };
}

impl Reading {
    /// Takes the statement at the front, where it has this form.
    fn take<'a>(
        &self,
        alloc: Global,
        bytes: &'a [u8],
        statements: &mut Vec<Wording>,
    ) -> Result<Option<Behind<'a>>, NoMemory>
        ensures { IfOk result (λ found. Took bytes.now statements.old.items statements.new.items found) }
    {
        let Some(found) = fitting(alloc, self.slots.as_slice(), self.form.text(), bytes)? else {
            return Ok(None);
        };
        let (cells, rest) = found;
        let form = self.form.clone()?;
        statements.push(Wording::of_form(form, cells))?;
        Ok(Some(Behind {
            rest,
            lines: self.lines,
        }))
    }
}

// The form of a statement that was read of this text, and the statement's constants.
fn form_of(
    alloc: Global,
    text: &[u8],
    statement: Statement,
    place: usize,
) -> Result<(Arc<Form>, CellList), NoMemory>
    requires { IsFormOf text.now (numbered statement) }
    ensures text { IfOk result (λ found. (arc_value found.0).0 ≡ text.now) }
    ensures statement { IfOk result (λ found. (arc_value found.0).1 ≡ numbered statement) }
    ensures cells { IfOk result (λ found. found.1.items ≡ cells_of statement) }
{
    let text = Vec::from_slice(alloc, text)?;
    let mut cells = CellList::new(alloc);
    let statement = blanked(statement, &mut cells)?;
    let form = Form::new(text, statement, place);
    let form = Arc::new(alloc, form)?;
    Ok((form, cells))
}

// What texts of the form of this one are read as, and the constants of its statement.
fn reading_of(
    alloc: Global,
    text: &[u8],
    lines: u64,
    statement: Statement,
    place: usize,
) -> Result<(Reading, CellList), NoMemory>
    requires { IsRead text.now lines statement }
    ensures { IfOk result (λ found. filled found.0.1 found.1.items ≡ statement) }
{
    let (form, cells) = form_of(alloc, text, statement, place)?;
    let slots = slots_of(alloc, text)?;
    let reading = Reading { form, slots, lines };
    Ok((reading, cells))
}

// What is known, the outline of its text, and where the form lies that followed it last: hints of which no clause speaks.
#[derive(Drop)]
struct Known {
    reading: Reading,
    outline: u64,
    next: usize,
}

/// The forms that are known, and outlines of texts that were met. A form is made of the second text of an outline. Clauses see
/// nothing of it: what was learned changes no answer.
#[derive(Drop)]
pub struct Forms {
    known: Vec<Option<Known>>,
    met: Vec<u64>,
    last: usize,
    // The outline of the text that was last sought and not found; 0 where none was taken.
    missed: u64,
    // For so many texts that aren't found an outline is taken; then for few.
    credit: usize,
    seldom: usize,
    turn: usize,
}

impl Model for Forms {
    ghost Value = { Unit {0} };

    ghost view = { λ f. tt };
}

// The first place of the set of an outline.
fn set_of(outline: u64) -> usize
    ensures { result ≤ 252 }
{
    (outline % SETS as u64) as usize * WAYS
}

impl Forms {
    /// None is known.
    pub fn new(alloc: Global) -> Forms {
        Forms {
            known: Vec::new(alloc),
            met: Vec::new(alloc),
            last: 0,
            missed: 0,
            credit: MOST_CREDIT,
            seldom: 0,
            turn: 0,
        }
    }

    // The form at this place.
    fn at(&self, place: usize) -> Option<&Known> {
        match self.known.get(place) {
            Some(Some(known)) => Some(known),
            _ => None,
        }
    }

    /// Whether a form may be made of the text that was sought last.
    pub fn is_curious(&self) -> bool {
        self.missed != 0
    }

    // Takes the statement at the front, where it has the form at this place.
    fn take_at<'a>(
        &self,
        alloc: Global,
        place: usize,
        bytes: &'a [u8],
        statements: &mut Vec<Wording>,
    ) -> Result<Option<Behind<'a>>, NoMemory>
        ensures { IfOk result (λ found. Took bytes.now statements.old.items statements.new.items found) }
    {
        match self.at(place) {
            Some(known) => known.reading.take(alloc, bytes, statements),
            None => Ok(None),
        }
    }

    // Where the form lies that followed the last one when it was last met.
    fn guess(&self) -> usize {
        match self.at(self.last) {
            Some(known) => known.next,
            None => 0,
        }
    }

    // The form at this place was met.
    fn meet(&mut self, place: usize) {
        if let Some(Some(known)) = self.known.get_mut(self.last) {
            known.next = place;
        }
        self.last = place;
    }

    // Whether a form with this outline lies at the place.
    fn has(&self, place: usize, outline: u64) -> bool {
        match self.at(place) {
            Some(known) => known.outline == outline,
            None => false,
        }
    }

    // Whether an outline is taken: while there is credit, and else of one text in about thirty-two.
    fn spend(&mut self) -> bool {
        if self.credit > 0 {
            self.credit = self.credit.saturating_sub(1);
            return true;
        }
        let seldom = self.seldom.wrapping_mul(5).wrapping_add(12345);
        self.seldom = seldom;
        (seldom >> 20) & 31 == 0
    }

    // An outline has served.
    fn earn(&mut self) {
        self.credit = self.credit.saturating_add(EARNED).min(MOST_CREDIT);
    }

    // Takes the statement at the front, where it has one of the forms with this outline; not the one at `guess`, which was tried.
    fn take_by<'a>(
        &mut self,
        alloc: Global,
        outline: u64,
        guess: usize,
        bytes: &'a [u8],
        statements: &mut Vec<Wording>,
    ) -> Result<Option<Behind<'a>>, NoMemory>
        ensures { IfOk result (λ found. Took bytes.now statements.old.items statements.new.items found) }
    {
        let first = set_of(outline);
        for place in first..first + WAYS {
            if place != guess && self.has(place, outline) {
                if let Some(found) = self.take_at(alloc, place, bytes, statements)? {
                    self.meet(place);
                    self.earn();
                    return Ok(Some(found));
                }
            }
        }
        Ok(None)
    }

    /// Takes the statement at the front, where its form is known.
    pub fn take<'a>(
        &mut self,
        alloc: Global,
        bytes: &'a [u8],
        statements: &mut Vec<Wording>,
    ) -> Result<Option<Behind<'a>>, NoMemory>
        ensures { IfOk result (λ found. Took bytes.now statements.old.items statements.new.items found) }
    {
        let guess = self.guess();
        if let Some(found) = self.take_at(alloc, guess, bytes, statements)? {
            self.last = guess;
            return Ok(Some(found));
        }
        self.missed = 0;
        if !self.spend() {
            return Ok(None);
        }
        let outline = outline_of(bytes);
        if let Some(found) = self.take_by(alloc, outline, guess, bytes, statements)? {
            return Ok(Some(found));
        }
        self.missed = outline;
        Ok(None)
    }

    // Whether a text of this outline was met before. It has been now.
    fn is_met(&mut self, outline: u64) -> Result<bool, NoMemory> {
        if self.met.len() == 0 {
            self.met.resize(SETS * WAYS, 0)?;
        }
        let place = (outline % (SETS * WAYS) as u64) as usize;
        let Some(met) = self.met.get_mut(place) else {
            return Ok(false);
        };
        let is_met = *met == outline;
        *met = outline;
        Ok(is_met)
    }

    // Whether a form of this outline is known.
    fn has_some(&self, outline: u64) -> bool {
        let first = set_of(outline);
        for place in first..first + WAYS {
            if self.has(place, outline) {
                return true;
            }
        }
        false
    }

    // A place for a form of this outline: a free one of its set, or that of another form.
    fn place_for(&mut self, outline: u64) -> usize {
        let first = set_of(outline);
        for place in first..first + WAYS {
            if self.at(place).is_none() {
                return place;
            }
        }
        self.turn = self.turn.wrapping_add(1);
        first + self.turn % WAYS
    }

    // Keeps what is known at a place.
    fn keep(&mut self, place: usize, reading: Reading, outline: u64) -> Result<(), NoMemory> {
        for _ in self.known.len()..SETS * WAYS {
            self.known.push(None)?;
        }
        if place < self.known.len() {
            self.known[place] = Some(Known {
                reading,
                outline,
                next: place,
            });
        }
        self.meet(place);
        Ok(())
    }

    // Whether no form is made of this text, which was sought last.
    fn passes_by(&mut self, text: &[u8]) -> Result<bool, NoMemory> {
        let outline = self.missed;
        if outline == 0 || text.len() > LONGEST_TEXT {
            return Ok(true);
        }
        let is_met = self.is_met(outline)?;
        Ok(!is_met || self.has_some(outline))
    }

    /// A statement that was read of this text, which was sought last and has so many line feeds: whole, or, where a text of its
    /// outline was met before, by a form that is known from now on.
    pub fn learn(
        &mut self,
        alloc: Global,
        text: &[u8],
        lines: u64,
        statement: Statement,
    ) -> Result<Wording, NoMemory>
        requires { IsRead text.now lines statement }
        ensures { IfOk result (λ wording. wording ≡ statement) }
    {
        if self.passes_by(text)? {
            return Ok(Wording::whole(statement));
        }
        let outline = self.missed;
        let place = self.place_for(outline);
        let (reading, cells) = reading_of(alloc, text, lines, statement, place)?;
        let form = reading.form.clone()?;
        self.keep(place, reading, outline)?;
        Ok(Wording::of_form(form, cells))
    }
}
