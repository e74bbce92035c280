//! A feed to which more may be pushed.
ghost use Rattle.std.specs.Prelude.{◌≡◌, ◌++◌, ℕ, [], List, OnOk};
ghost use Rattle.lt_model.specs.declared.syntax.Item.{Item as ScriptItem};
ghost use Rattle.lt_script.specs.Feed.{HasFed, IsStep};
ghost use Rattle.lt_input.specs.Fed.{IsStepWithin};

use lt_face::NoMemory;
use lt_script::{Feed, FeedStep};
use std::alloc::Global;
use std::marker::Model;

/// A feed that wasn't ended. Clauses see the feed.
#[derive(Drop)]
pub struct Fed {
    feed: Feed,
}

impl Model for Fed {
    ghost use Rattle.std.specs.Prelude.{◌≡◌, false};
    ghost use Rattle.lt_script.specs.declared.feed.Feed.{Feed};
    ghost use Rattle.lt_input.specs.Fed.{IsFed};

    ghost Value = { Feed };

    ghost view = { λ f. f.feed };

    ghost invariant = { λ f. IsFed f.feed × (f.feed.ended ≡ false) };
}

impl Fed {
    /// Nothing was pushed yet.
    pub fn new(alloc: Global) -> Fed
        ensures { HasFed result [] [] }
    {
        Fed {
            feed: Feed::new(alloc),
        }
    }

    /// Puts these bytes behind those that were pushed. On want of memory nothing is pushed.
    pub fn push(&mut self, piece: &[u8]) -> Result<(), NoMemory>
        ensures { OnOk result ((bytes : List ℕ) (items : List ScriptItem) → HasFed self.old bytes items → HasFed self.new (bytes ++ piece.now) items) }
    {
        self.feed.push(piece)
    }

    /// How many bytes stand behind the last item that was answered.
    pub fn kept(&self) -> usize {
        self.feed.kept()
    }

    /// The next item, or why there is none.
    pub fn next_step(&mut self, alloc: Global) -> FeedStep
        ensures step { (bytes : List ℕ) (items : List ScriptItem) → HasFed self.old bytes items → IsStep bytes items self.old self.new result }
        ensures within { IsStepWithin result }
    {
        self.feed.next_step(alloc)
    }
}
