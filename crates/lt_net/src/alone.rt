//! What a worker alone gets done, from any state that legal events lead to and in which no claim stands.
ghost use Rattle.std.specs.Prelude.{◌≡◌, ℕ, ◌+◌, ◌*◌, ◌-◌, ◌<◌, ◌≤◌, List, Some, length};
ghost use Rattle.lt_model.specs.declared.mark.Mark.{Mark};
ghost use Rattle.lt_net.specs.declared.job.JobState.TheVariants.{Clean};
ghost use Rattle.lt_net.specs.declared.job.JobName.TheVariants.{Leaf};
ghost use Rattle.lt_net.specs.Net.{Event, State, replay, opening, IsSettled};
ghost use Rattle.lt_net.specs.Codes.{code_of};
ghost use Rattle.lt_net.specs.Alone.{net_over, IsUnclaimed, IsSwept, run_all, sweep, rounds, settled_alone, alone_events};

/// The Merges bottom up and then the Corrects top down, each where it is Pending, leave only leaves to be run.
pub fn sweep_settles_inner()
    ensures { (effect : ℕ → List Mark → List Mark) (n : ℕ) (events : List Event) (s : State) →
        let net = net_over effect n in
        replay net (Some (opening net)) events ≡ Some s → IsUnclaimed s → IsSwept (sweep net n s) }
{}

/// After k rounds the first k leaves are Clean, and stay so whatever jobs are run. A round is a sweep, and then the lowest
/// leaf that is Pending.
pub fn each_round_one_leaf()
    ensures { (effect : ℕ → List Mark → List Mark) (n : ℕ) (events : List Event) (s : State) →
        let net = net_over effect n in
        replay net (Some (opening net)) events ≡ Some s → IsUnclaimed s →
        (k i : ℕ) (jobs : List ℕ) → i < k → (run_all net (rounds net n k s) jobs).status (code_of (Leaf i)) ≡ Clean }
{}

/// As many rounds as leaves and a last sweep are legal events, they settle the circuit, and they are few.
pub fn alone_settles()
    ensures legal { (effect : ℕ → List Mark → List Mark) (n : ℕ) (events : List Event) (s : State) →
        let net = net_over effect n in
        replay net (Some (opening net)) events ≡ Some s → IsUnclaimed s → replay net (Some s) (alone_events net n s) ≡ Some (settled_alone net n s) }
    ensures settled { (effect : ℕ → List Mark → List Mark) (n : ℕ) (events : List Event) (s : State) →
        let net = net_over effect n in
        replay net (Some (opening net)) events ≡ Some s → IsUnclaimed s → IsSettled (settled_alone net n s) }
    ensures few { (effect : ℕ → List Mark → List Mark) (n : ℕ) (events : List Event) (s : State) →
        let net = net_over effect n in
        replay net (Some (opening net)) events ≡ Some s → IsUnclaimed s → length (alone_events net n s) ≤ 2 * ((n + 1) * 2 * (n - 1) + n) }
{}
