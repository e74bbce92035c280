//! What a worker alone gets done on a line, from any state that legal events lead to and in which no claim stands.
ghost use Rattle.std.specs.Prelude.{◌≡◌, ℕ, ◌≤◌, List, Some, length};
ghost use Rattle.lt_model.specs.declared.mark.Mark.{Mark};
ghost use Rattle.lt_net.specs.Net.{Event, State, replay, IsReached, IsSettled};
ghost use Rattle.lt_net.specs.Alone.{all_events, run_all, IsUnclaimed};
ghost use Rattle.lt_net.specs.Line.{line_net, AreSizes};
ghost use Rattle.lt_net.specs.LineAlone.{line_bound, line_jobs};

/// Segment after segment, each by as many rounds as it has leaves, a last sweep and its Pass: these are legal events, they settle
/// the line, and they are few.
pub fn alone_settles_line()
    ensures legal { (effect : ℕ → List Mark → List Mark) (sizes : List ℕ) (events : List Event) (s : State) → AreSizes sizes →
        let net = line_net effect sizes in
        IsReached net events s → IsUnclaimed s →
        replay net (Some s) (all_events net s (line_jobs net sizes (length sizes) s)) ≡ Some (run_all net s (line_jobs net sizes (length sizes) s)) }
    ensures settled { (effect : ℕ → List Mark → List Mark) (sizes : List ℕ) (events : List Event) (s : State) → AreSizes sizes →
        let net = line_net effect sizes in
        IsReached net events s → IsUnclaimed s → IsSettled (run_all net s (line_jobs net sizes (length sizes) s)) }
    ensures few { (effect : ℕ → List Mark → List Mark) (sizes : List ℕ) (events : List Event) (s : State) → AreSizes sizes →
        let net = line_net effect sizes in
        IsReached net events s → IsUnclaimed s → length (all_events net s (line_jobs net sizes (length sizes) s)) ≤ line_bound sizes (length sizes) }
{}
