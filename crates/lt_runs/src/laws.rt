//! Laws of runs.
ghost use Rattle.std.specs.Prelude.{◌++◌, ℕ, Bool, List};
ghost use Rattle.std.specs.List.{AllByRecursion};
ghost use Rattle.lt_model.specs.declared.syntax.Item.{Item};
ghost use Rattle.lt_model.specs.Script.{Close, Script};
ghost use Rattle.lt_blocks.specs.declared.block.Block.{Block};
ghost use Rattle.lt_blocks.specs.Blocks.{blocks_text, script_text, IsBlock};
ghost use Rattle.lt_world.specs.Traces.{AreBlocks};
ghost use Rattle.lt_runs.specs.ReplayEnds.{IsRightTrace};

use lt_world::laws::blocks_are_right;

/// The blocks that a run of a script with traces writes are a right trace of it, with the line `script` and the script behind them:
/// where each number in them is below 2^32.
pub fn traces_are_right()
    ensures { (marks : Bool) (script : List ℕ) (items : List Item) (close : Close) (blocks : List Block) → Script script items close → AreBlocks marks items blocks → AllByRecursion IsBlock blocks →
        IsRightTrace marks (blocks_text blocks ++ (script_text ++ script)) items close }
{
    blocks_are_right();
}
