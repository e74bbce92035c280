//! What a tally keeps of a statement.
ghost use Rattle.std.specs.Prelude.{◌≡◌, IfOk, IfSome};
ghost use Rattle.std.specs.Option.{is_some};
ghost use Rattle.lt_sense.specs.Gathered.{IsAskable};
ghost use Rattle.lt_sense.specs.Sense.{covers};
ghost use Rattle.lt_program.specs.Part.{is_by_key, kept_by, part_of, root_of, slices_of};
ghost use Rattle.lt_program.specs.Tally.{sense_of};

use lt_face::items::RowList;
use lt_face::memory::NoMemory;
use lt_face::row::Row;
use lt_join::Slices;
use lt_sense::Sense;
use std::alloc::Global;
use std::marker::Model;
use std::sync::Arc;

/// What the evaluation of a statement gives.
#[derive(Drop)]
pub enum Found {
    /// The answers of the head of an `insert` or a `delete`, or of a `print`.
    Rows(RowList),
    /// The answers of the two heads of a `replace`: of the one whose rows go, and of the one whose rows come.
    Both(RowList, RowList),
    /// Of an `insert` into a relation with value columns, or a `replace` whose rows come into one: the answers of the head whose rows
    /// go, of an `insert` none; those of the head whose rows come; and the rows that these displace, none where two of them have one
    /// key.
    Keyed(RowList, RowList, RowList),
    /// Whether the conditions of a `require` can be met.
    Truth(bool),
}

/// What a statement was sensitive to: one sense, or, of a statement kept by slices, root gaps and slices.
#[derive(Drop)]
pub enum Certificate {
    Whole(Sense),
    ByKey(Slices),
}

impl Certificate {
    /// Whether the certificate has the row.
    pub fn covers(&self, relation: u32, row: &Row) -> bool
        ensures { IsAskable (kept_by self.now) relation row.now → result ≡ covers (kept_by self.now) relation row.now }
    {
        match self {
            Certificate::Whole(sense) => sense.covers(relation, row),
            Certificate::ByKey(found) => found.covers(relation, row),
        }
    }

    /// How much it keeps, for choices of time alone. No clause speaks of it.
    pub fn weight(&self) -> usize {
        match self {
            Certificate::Whole(sense) => sense.weight(),
            Certificate::ByKey(found) => found.weight(),
        }
    }
}

/// The outcome of a statement, and what it was sensitive to.
#[derive(Drop)]
pub struct Part {
    pub(crate) outcome: Found,
    pub(crate) certificate: Certificate,
}

impl Model for Part {
    ghost use Rattle.lt_program.specs.Part.{Part, part_of};

    ghost Value = { Part };

    ghost view = { λ p. part_of p.outcome p.certificate };
}

impl Part {
    /// The part with this outcome and this certificate.
    pub(crate) fn new(outcome: Found, certificate: Certificate) -> Part
        ensures { result ≡ part_of outcome certificate }
    {
        Part {
            outcome,
            certificate,
        }
    }

    /// The outcome.
    pub fn outcome(&self) -> &Found
        ensures { result.now ≡ self.now.outcome }
    {
        &self.outcome
    }

    /// The outcome; the rest is given up.
    pub(crate) fn into_outcome(self) -> Found
        ensures { result ≡ self.outcome }
    {
        let Part {
            outcome,
            certificate: _,
        } = self;
        outcome
    }

    /// What the statement was sensitive to.
    pub fn certificate(&self) -> &Certificate
        ensures root { root_of result.now ≡ self.now.sense }
        ensures slices { slices_of result.now ≡ self.now.slices }
        ensures by_key { is_by_key result.now ≡ self.now.by_key }
    {
        &self.certificate
    }

    /// The root gaps and the slices of a statement kept by slices.
    pub fn slices(&self) -> Option<&Slices>
        ensures there { is_some result ≡ self.now.by_key }
        ensures root { IfSome result (λ found. found.now.root ≡ self.now.sense) }
        ensures slices { IfSome result (λ found. found.now.slices ≡ self.now.slices) }
    {
        match &self.certificate {
            Certificate::Whole(_) => None,
            Certificate::ByKey(found) => Some(found),
        }
    }

    /// Whether the statement was sensitive to the row.
    pub fn covers(&self, relation: u32, row: &Row) -> bool
        ensures { IsAskable (sense_of self.now) relation row.now → result ≡ covers (sense_of self.now) relation row.now }
    {
        self.certificate.covers(relation, row)
    }
}

/// A part that several tallies may own. Contracts see it as the part.
#[derive(Drop)]
pub struct SharedPart {
    part: Arc<Part>,
}

impl Model for SharedPart {
    ghost use Rattle.std.specs.Arc.{arc_value};
    ghost use Rattle.lt_program.specs.Part.{Part};

    ghost Value = { Part };

    ghost view = { λ s. arc_value s.part };
}

impl SharedPart {
    /// The part, with one owner.
    pub(crate) fn new(alloc: Global, part: Part) -> Result<SharedPart, NoMemory>
        ensures { IfOk result (λ shared. shared ≡ part) }
    {
        let part = Arc::new(alloc, part)?;
        Ok(SharedPart { part })
    }

    /// A second owner of the same part.
    pub(crate) fn share(&self) -> Result<SharedPart, NoMemory>
        ensures { IfOk result (λ shared. shared ≡ self.now) }
    {
        let part = self.part.clone()?;
        Ok(SharedPart { part })
    }

    /// The part.
    pub fn part(&self) -> &Part
        ensures { result.now ≡ self.now }
    {
        &self.part
    }
}
