//! What holds over every list of legal events.
ghost use Rattle.std.specs.Prelude.{◌≡◌, ℕ, true, false, List, [], Some};
ghost use Rattle.lt_model.specs.declared.mark.Mark.{Mark};
ghost use Rattle.lt_net.specs.declared.job.JobState.TheVariants.{Clean, Running};
ghost use Rattle.lt_net.specs.Kept.{IsDone};
ghost use Rattle.lt_net.specs.Net.{Cell, Claim, Correction, Event, State, IsReached, IsSettled, has_cell, is_held, read};
ghost use Rattle.lt_net.specs.Tree.{circuit_net, tree_of, GiveMarks, IsSerial};

/// A settled circuit is what running its leaves one after another gives.
pub fn settled_is_serial()
    ensures { (effect : ℕ → List Mark → List Mark) (n : ℕ) (events : List Event) (s : State) → GiveMarks effect n →
        IsReached (circuit_net effect (tree_of n)) events s → IsSettled s → IsSerial effect n s }
{}

/// Whatever the events: a Clean job is done, so its outputs are its function of the inputs that stand, and a leaf last
/// finished with its node's correction; a Running job's captured inputs stand; a claim captured the tally that stands;
/// each claim is of a job that is Running or Dirty, and each such job has one worker's claim; what no job gives, as the
/// root's correction, stays empty; a code without inputs stays Clean. Of a Pending or Dirty job's outputs nothing is said.
pub fn every_event_keeps()
    ensures clean { (effect : ℕ → List Mark → List Mark) (n : ℕ) (events : List Event) (s : State) →
        let net = circuit_net effect (tree_of n) in
        IsReached net events s → (job : ℕ) → s.status job ≡ Clean → IsDone net s job }
    ensures current { (effect : ℕ → List Mark → List Mark) (n : ℕ) (events : List Event) (s : State) →
        let net = circuit_net effect (tree_of n) in
        IsReached net events s → (worker : ℕ) (claim : Claim) → s.claim worker ≡ Some claim → s.status claim.job ≡ Running →
        claim.inputs ≡ read s.value (net.inputs claim.job) }
    ensures captured { (effect : ℕ → List Mark → List Mark) (n : ℕ) (events : List Event) (s : State) →
        IsReached (circuit_net effect (tree_of n)) events s →
        (worker : ℕ) (claim : Claim) → s.claim worker ≡ Some claim → claim.prior ≡ s.done claim.job }
    ensures held { (effect : ℕ → List Mark → List Mark) (n : ℕ) (events : List Event) (s : State) →
        IsReached (circuit_net effect (tree_of n)) events s →
        (worker : ℕ) (claim : Claim) → s.claim worker ≡ Some claim → is_held (s.status claim.job) ≡ true }
    ensures single { (effect : ℕ → List Mark → List Mark) (n : ℕ) (events : List Event) (s : State) →
        IsReached (circuit_net effect (tree_of n)) events s →
        (v w : ℕ) (b c : Claim) → s.claim v ≡ Some b → s.claim w ≡ Some c → b.job ≡ c.job → v ≡ w }
    ensures holder { (effect : ℕ → List Mark → List Mark) (n : ℕ) (events : List Event) (s : State) →
        IsReached (circuit_net effect (tree_of n)) events s →
        (job : ℕ) → is_held (s.status job) ≡ true → (worker : ℕ) × (claim : Claim) × (s.claim worker ≡ Some claim) × (claim.job ≡ job) }
    ensures idle { (effect : ℕ → List Mark → List Mark) (n : ℕ) (events : List Event) (s : State) →
        let net = circuit_net effect (tree_of n) in
        IsReached net events s → (job : ℕ) → net.inputs job ≡ [] → s.status job ≡ Clean }
    ensures bare { (effect : ℕ → List Mark → List Mark) (n : ℕ) (events : List Event) (s : State) →
        let net = circuit_net effect (tree_of n) in
        IsReached net events s → (x : Cell) → ((job : ℕ) → has_cell x (net.outputs job) ≡ false) → s.value x ≡ [] }
    ensures root { (effect : ℕ → List Mark → List Mark) (n : ℕ) (events : List Event) (s : State) →
        IsReached (circuit_net effect (tree_of n)) events s → s.value (Correction 0) ≡ [] }
{}
