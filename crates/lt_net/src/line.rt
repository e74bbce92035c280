//! What holds of a row of segments that start together, over every list of legal events.
ghost use Rattle.std.specs.Prelude.{◌≡◌, ℕ, ◌+◌, ◌*◌, ◌<◌, ◌≤◌, true, List, [], ◌∷◌, Some, None, length};
ghost use Rattle.lt_model.specs.declared.mark.Mark.{Mark};
ghost use Rattle.lt_net.specs.declared.job.JobName.{JobName};
ghost use Rattle.lt_net.specs.Alike.{AreAlike};
ghost use Rattle.lt_net.specs.Codes.{code_of};
ghost use Rattle.lt_net.specs.Kept.{IsKept, IsBare};
ghost use Rattle.lt_net.specs.Net.{Claim, Correction, Event, State, IsReached, IsSettled, abandoned, claimed, finished, opening, replay, update};
ghost use Rattle.lt_net.specs.Row.{row_claim, row_state, segment_net, with_pass, lifted, HasNoOther};
ghost use Rattle.lt_net.specs.Tree.{circuit_net, tree_of, IsSerial};
ghost use Rattle.lt_net.specs.Line.{Own, hands_on, line_code, line_net, placed, AreSizes, GiveMarksIn, IsSerialBelow, IsPast, IsSameBelow};

/// In a settled row each leaf did what it does on the effects of all leaves before it, in all segments.
pub fn settled_line_is_serial()
    ensures { (effect : ℕ → List Mark → List Mark) (sizes : List ℕ) (events : List Event) (s : State) → AreSizes sizes → GiveMarksIn effect sizes →
        IsReached (line_net effect sizes) events s → IsSettled s → IsSerialBelow effect sizes (length sizes) s }
{}

/// Whatever the events, the row keeps what a circuit keeps, and the first segment's root has no correction.
pub fn every_event_of_line_keeps()
    ensures kept { (effect : ℕ → List Mark → List Mark) (sizes : List ℕ) (events : List Event) (s : State) → AreSizes sizes →
        IsReached (line_net effect sizes) events s → IsKept (line_net effect sizes) s }
    ensures bare { (effect : ℕ → List Mark → List Mark) (sizes : List ℕ) (events : List Event) (s : State) → AreSizes sizes →
        IsReached (line_net effect sizes) events s → IsBare (line_net effect sizes) s }
    ensures root { (effect : ℕ → List Mark → List Mark) (sizes : List ℕ) (events : List Event) (s : State) → AreSizes sizes →
        IsReached (line_net effect sizes) events s → s.value (placed 0 (Correction 0)) ≡ [] }
{}

/// Where no job of the segments below f and no Pass between them is to be done or held, these segments are serial, and no later
/// event changes their effects or their tallies, or makes one of these jobs one that is to be done.
pub fn front_is_final()
    ensures serial { (effect : ℕ → List Mark → List Mark) (sizes : List ℕ) (events : List Event) (f : ℕ) (s : State) → AreSizes sizes → GiveMarksIn effect sizes →
        IsReached (line_net effect sizes) events s → f ≤ length sizes → IsPast f s → IsSerialBelow effect sizes f s }
    ensures past { (effect : ℕ → List Mark → List Mark) (sizes : List ℕ) (events later : List Event) (f : ℕ) (s t : State) → AreSizes sizes →
        IsReached (line_net effect sizes) events s → f ≤ length sizes → IsPast f s → replay (line_net effect sizes) (Some s) later ≡ Some t → IsPast f t }
    ensures same { (effect : ℕ → List Mark → List Mark) (sizes : List ℕ) (events later : List Event) (f : ℕ) (s t : State) → AreSizes sizes →
        IsReached (line_net effect sizes) events s → f ≤ length sizes → IsPast f s → replay (line_net effect sizes) (Some s) later ≡ Some t → IsSameBelow sizes f s t }
{}

/// A line's state is the row of its segments' states: its opening is that of each, and what an event does to one segment alone is
/// what it does to the line.
pub fn row_is_line()
    ensures opening { (effect : ℕ → List Mark → List Mark) (sizes : List ℕ) (count : ℕ) → AreSizes sizes →
        row_state count (λ s. opening (segment_net effect sizes s)) ≡ opening (line_net effect sizes) }
    ensures claimed { (effect : ℕ → List Mark → List Mark) (sizes : List ℕ) (count : ℕ) (parts : ℕ → State) (s w place : ℕ) → AreSizes sizes → s < count → place < 2048 →
        row_claim count parts w ≡ None →
        row_state count (update parts s (claimed (segment_net effect sizes s) (parts s) w place)) ≡ claimed (line_net effect sizes) (row_state count parts) w (2048 * s + place) }
    ensures abandoned { (effect : ℕ → List Mark → List Mark) (sizes : List ℕ) (count : ℕ) (parts : ℕ → State) (s w : ℕ) (c : Claim) → AreSizes sizes → s < count → c.job < 2048 →
        HasNoOther count parts s w →
        row_state count (update parts s (abandoned (parts s) w c)) ≡ abandoned (row_state count parts) w (lifted s c) }
    ensures finished { (effect : ℕ → List Mark → List Mark) (sizes : List ℕ) (count : ℕ) (parts : ℕ → State) (s w : ℕ) (c : Claim) → AreSizes sizes → s < count → c.job < 2047 →
        HasNoOther count parts s w →
        row_state count (update parts s (finished (segment_net effect sizes s) (parts s) w c)) ≡ finished (line_net effect sizes) (row_state count parts) w (lifted s c) }
    ensures passed { (effect : ℕ → List Mark → List Mark) (sizes : List ℕ) (count : ℕ) (parts : ℕ → State) (s w : ℕ) (c : Claim) → AreSizes sizes → s + 1 < count → hands_on sizes s ≡ true →
        c.job ≡ 2047 → HasNoOther count parts s w →
        row_state count (with_pass effect sizes parts s w c) ≡ finished (line_net effect sizes) (row_state count parts) w (lifted s c) }
{}

/// A line of one segment is the circuit of that tree, with the same codes and leaves: its jobs are the same, so it opens alike and the
/// same events are legal and lead to the same states. What is serial of the one is so of the other.
pub fn line_of_one_is_circuit()
    ensures jobs { (effect : ℕ → List Mark → List Mark) (n : ℕ) → n ≤ 256 →
        AreAlike (line_net effect (n ∷ [])) (circuit_net effect (tree_of n)) }
    ensures codes { (name : JobName) → line_code (Own 0 name) ≡ code_of name }
    ensures opening { (effect : ℕ → List Mark → List Mark) (n : ℕ) → n ≤ 256 →
        opening (line_net effect (n ∷ [])) ≡ opening (circuit_net effect (tree_of n)) }
    ensures replay { (effect : ℕ → List Mark → List Mark) (n : ℕ) (events : List Event) (s : State) → n ≤ 256 →
        replay (line_net effect (n ∷ [])) (Some s) events ≡ replay (circuit_net effect (tree_of n)) (Some s) events }
    ensures serial { (effect : ℕ → List Mark → List Mark) (n : ℕ) (s : State) → IsSerialBelow effect (n ∷ []) 1 s → IsSerial effect n s }
    ensures below { (effect : ℕ → List Mark → List Mark) (n : ℕ) (s : State) → IsSerial effect n s → IsSerialBelow effect (n ∷ []) 1 s }
{}
