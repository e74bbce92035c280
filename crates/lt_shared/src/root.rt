//! The root of a set: a list of nodes, which may be empty.
ghost use Rattle.std.specs.Prelude.{◌≡◌, ◌≤◌, ◌+◌, [], ◌∷◌, length, not, true, false, IfOk, OnOk, OnErr};
ghost use Rattle.std.specs.Arc.{arc_value};
ghost use Rattle.lt_face.specs.Rows.{IsAscending, has_row, with_row, without_row};
ghost use Rattle.lt_shared.specs.Shared.{root_rows, IsGrown};

use crate::edit::{put_below, take_below};
use crate::entry::{Put, Taken};
use crate::level::{Level, Node};
use lt_face::{Moves, NoMemory, Row};
use std::alloc::Global;
use std::sync::Arc;

/// The root of one row.
fn root_of<L>(alloc: Global, row: &Row, made: &mut Moves<L>) -> Result<Arc<Vec<Node>>, NoMemory>
    ensures rows { IfOk result (λ root. root_rows (arc_value root).items ≡ row.now ∷ []) }
    ensures one { IfOk result (λ root. length (arc_value root).items ≡ 1) }
    ensures made { made.new ≤ made.old + 3 }
{
    let rows = vec![in alloc; row.copy_row()]?;
    made.tick();
    let page = Level::of(alloc, rows)?;
    let pages = vec![in alloc; page]?;
    made.tick();
    let node = Level::of(alloc, pages)?;
    let nodes = vec![in alloc; node]?;
    made.tick();
    let root = Arc::new(alloc, nodes)?;
    Ok(root)
}

/// Puts a row in, and answers whether it was new.
pub fn put_in<L>(
    nodes: &mut Arc<Vec<Node>>,
    row: &Row,
    made: &mut Moves<L>,
) -> Result<bool, NoMemory>
    requires { IsAscending (root_rows (arc_value nodes.old).items) }
    ensures ok { OnOk result (root_rows (arc_value nodes.new).items ≡ with_row (root_rows (arc_value nodes.old).items) row.now) }
    ensures new { IfOk result (λ new. new ≡ not (has_row (root_rows (arc_value nodes.old).items) row.now)) }
    ensures kept { IfOk result (λ new. new ≡ false → root_rows (arc_value nodes.new).items ≡ root_rows (arc_value nodes.old).items) }
    ensures err { OnErr result (root_rows (arc_value nodes.new).items ≡ root_rows (arc_value nodes.old).items) }
    ensures made { made.new ≤ made.old + length (arc_value nodes.old).items + 132 }
    ensures grows { IsGrown (arc_value nodes.old).items (arc_value nodes.new).items }
{
    if nodes.is_empty() {
        *nodes = root_of(*nodes.allocator(), row, made)?;
        return Ok(true);
    }
    let put = put_below(nodes, row, usize::MAX, made)?;
    match put {
        Put::Was => Ok(false),
        Put::Fits => Ok(true),
        Put::Halves(_, _) => Err(NoMemory),
    }
}

/// Takes a row out, and answers whether it was there.
pub fn take_from<L>(
    nodes: &mut Arc<Vec<Node>>,
    row: &Row,
    made: &mut Moves<L>,
) -> Result<bool, NoMemory>
    requires { IsAscending (root_rows (arc_value nodes.old).items) }
    ensures ok { OnOk result (root_rows (arc_value nodes.new).items ≡ without_row (root_rows (arc_value nodes.old).items) row.now) }
    ensures there { IfOk result (λ there. there ≡ has_row (root_rows (arc_value nodes.old).items) row.now) }
    ensures kept { IfOk result (λ there. there ≡ false → root_rows (arc_value nodes.new).items ≡ root_rows (arc_value nodes.old).items) }
    ensures err { OnErr result (root_rows (arc_value nodes.new).items ≡ root_rows (arc_value nodes.old).items) }
    ensures made { made.new ≤ made.old + length (arc_value nodes.old).items + 132 }
    ensures shrinks { length (arc_value nodes.new).items ≤ length (arc_value nodes.old).items }
{
    if nodes.is_empty() {
        return Ok(false);
    }
    let taken = take_below(nodes, row, made)?;
    match taken {
        Taken::Missing => Ok(false),
        Taken::Out => Ok(true),
        Taken::Last => {
            let alloc = *nodes.allocator();
            *nodes = Arc::new(alloc, Vec::new(alloc))?;
            Ok(true)
        }
    }
}
