//! Who is handed what a line's segments do, as soon as that is final.
ghost use Rattle.std.specs.Prelude.{◌≡◌, [], ◌∷◌, ◌++◌, List, OnOk, OnErr};
ghost use Rattle.lt_model.specs.declared.mark.Mark.{Mark};

use lt_delta::Marks;
use lt_face::NoMemory;
use std::sync::Wait;
use std::thread::Threads;

/// Is handed the effects of a line's segments, in order, each once, when no later event can change them.
pub trait OnFinal: Drop {
    /// These marks fit. No call changes it.
    ghost fits: { Self → List Mark → Type 0 };

    /// All marks that it took.
    ghost given: { Self → List (List Mark) };

    /// Takes the effect of all leaves of this segment. Where memory is refused it has taken nothing.
    fn on_final<R: Threads + Wait + Sync>(
        &mut self,
        rt: &R,
        segment: u32,
        effect: &Marks,
    ) -> Result<(), NoMemory>
        requires fits { fits self.old effect.now }
        ensures base { (m : List Mark) → fits self.old m → fits self.new m }
        ensures given { OnOk result (given self.new ≡ given self.old ++ effect.now ∷ []) }
        ensures refused { OnErr result (given self.new ≡ given self.old) };
}
