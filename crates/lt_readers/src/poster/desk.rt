//! What the poster does with the two copies.
ghost use Rattle.std.specs.Prelude.{◌≡◌, [], ◌∷◌, ◌++◌, drop};
ghost use Rattle.left_right.specs.Sides.{view};
ghost use Rattle.lt_readers.specs.Passes.{Knows};

use crate::front::Front;
use crate::pass::{Desk, Shows};
use std::sync::Wait;

/// Puts what is to be shown behind what is pending. What was refused is tried again.
pub fn append<R: Wait>(rt: &R, desk: &mut Desk, front: Front)
    ensures desk { desk.new.desk ≡ desk.old.desk }
    ensures pending { drop desk.new.behind desk.new.log.items ≡ drop desk.old.behind desk.old.log.items ++ front ∷ [] }
{
    let mut front = front;
    for _ in rt.forever() {
        match desk.append(front) {
            Ok(()) => return,
            Err(back) => {
                front = back;
            }
        }
    }
    unreachable!()
}

/// Shows what is pending. It waits for the readers that are still at the copy from before. What was refused is tried again.
pub fn show<R: Wait>(rt: &R, desk: Desk, front: &Front) -> Desk
    requires last { (rest : _) × (post : _) × (drop desk.behind desk.log.items ≡ rest ++ post ∷ []) × (post.seen ≡ front.now.seen) }
    requires one_history { desk.desk.shown.value.seen.book ≡ front.now.seen.book }
    ensures shown { result.desk.shown.value.seen ≡ front.now.seen }
    ensures knows { Knows (view result.desk.place) front.now.seen.book }
{
    let mut desk = desk;
    for _ in rt.forever() {
        let (next, shown) = desk.publish_as::<Shows, R>(rt);
        desk = next;
        if shown.is_ok() {
            return desk;
        }
    }
    unreachable!()
}
