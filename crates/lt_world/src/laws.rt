//! Laws of scripts.
ghost use Rattle.std.specs.Prelude.{Bool, List};
ghost use Rattle.lt_model.specs.declared.syntax.Item.{Item};
ghost use Rattle.lt_blocks.specs.declared.block.Block.{Block};
ghost use Rattle.lt_world.specs.Keyed.{ScriptsStayKeyed};
ghost use Rattle.lt_world.specs.Replays.{AreRight};
ghost use Rattle.lt_world.specs.Traces.{AreBlocks};

use lt_batch::settled_entries_are_faultless;
use lt_program::laws::runs_keep_keys;

/// Wherever the items of a script lead, each relation has one row for a key at most, now and at each version.
pub fn scripts_keep_keys()
    ensures { ScriptsStayKeyed }
{
    runs_keep_keys();
}

/// The blocks that a run of a script leaves are right: a replay of the script meets no fault in them.
pub fn blocks_are_right()
    ensures { (marks : Bool) (items : List Item) (blocks : List Block) → AreBlocks marks items blocks → AreRight marks items blocks }
{
    settled_entries_are_faultless();
}
