//! What a claim captures.
ghost use Rattle.std.specs.Prelude.{◌≡◌, ◌≢◌, ◌+◌, ◌*◌, ◌<◌, [], None, IfOk};
ghost use Rattle.lt_net.specs.declared.job.JobName.TheVariants.{Leaf, Merge, Correct};
ghost use Rattle.lt_net.specs.Net.{read};
ghost use Rattle.lt_net.specs.Tree.{inputs_of, right_in, tree_of};
ghost use Rattle.lt_net.specs.Codes.{code_of};
ghost use Rattle.lt_circuit.specs.Board.{inputs_list, state_of};

use super::Board;
use crate::cells::{Captured, Inputs};
use crate::tree::{node_of, right_of};
use lt_delta::Marks;
use lt_face::NoMemory;
use lt_net::JobName;

impl Board {
    /// The effects of an inner node's children.
    fn effects_below(&self, node: u32) -> Result<Inputs, NoMemory>
        requires inside { node + 2 < 2 * self.now.leaves }
        requires inner { right_in (tree_of self.now.leaves) node ≢ None }
        ensures { IfOk result (λ inputs. inputs_list inputs ≡ read (state_of self.now).value (inputs_of (tree_of self.now.leaves) (Merge node))) }
    {
        let found = right_of(self.leaves, node);
        match found {
            Some(right) => {
                let first = self.effect(node + 1).share()?;
                let second = self.effect(right).share()?;
                Ok(Inputs::Two(first, second))
            }
            None => unreachable!(),
        }
    }

    /// An inner node's correction, and the effect of its left child.
    fn correction_and_left(&self, node: u32) -> Result<Inputs, NoMemory>
        requires inside { node + 2 < 2 * self.now.leaves }
        requires inner { right_in (tree_of self.now.leaves) node ≢ None }
        ensures { IfOk result (λ inputs. inputs_list inputs ≡ read (state_of self.now).value (inputs_of (tree_of self.now.leaves) (Correct node))) }
    {
        let _leaves = self.leaves;
        let first = self.correction(node).share()?;
        let second = self.effect(node + 1).share()?;
        Ok(Inputs::Two(first, second))
    }

    /// The correction of a leaf's node.
    fn leaf_correction(&self, leaf: u32) -> Result<Inputs, NoMemory>
        requires { leaf < self.now.leaves }
        ensures { IfOk result (λ inputs. inputs_list inputs ≡ read (state_of self.now).value (inputs_of (tree_of self.now.leaves) (Leaf leaf))) }
    {
        let node = node_of(self.leaves, leaf);
        let first = self.correction(node).share()?;
        Ok(Inputs::One(first))
    }

    /// The inputs of a job of the tree, as they stand.
    #[tactic(auto, using(lt_net::proofs::Inside::leaf_inside, lt_net::proofs::Inside::merge_inside, lt_net::proofs::Inside::merge_inner, lt_net::proofs::Inside::correct_inside, lt_net::proofs::Inside::correct_inner))]
    fn inputs(&self, job: JobName) -> Result<Inputs, NoMemory>
        requires { inputs_of (tree_of self.now.leaves) job ≢ [] }
        ensures { IfOk result (λ inputs. inputs_list inputs ≡ read (state_of self.now).value (inputs_of (tree_of self.now.leaves) job)) }
    {
        match job {
            JobName::Leaf(leaf) => self.leaf_correction(leaf),
            JobName::Merge(node) => self.effects_below(node),
            JobName::Correct(node) => self.correction_and_left(node),
            JobName::Pass(_segment) => unreachable!(),
        }
    }

    /// The correction that a leaf's job last finished with.
    fn prior(&self, job: JobName) -> Result<Option<Marks>, NoMemory>
        requires { inputs_of (tree_of self.now.leaves) job ≢ [] }
        ensures { IfOk result (λ prior. prior ≡ (state_of self.now).done (code_of job)) }
    {
        match job {
            JobName::Leaf(leaf) => {
                let prior = share_prior(&self.done[leaf as usize])?;
                Ok(prior)
            }
            JobName::Merge(_node) => Ok(None),
            JobName::Correct(_node) => Ok(None),
            JobName::Pass(_segment) => Ok(None),
        }
    }

    /// What a claim of a job of the tree captures, for the board and once more for the worker.
    pub fn capture(&self, job: JobName) -> Result<Captured, NoMemory>
        requires { inputs_of (tree_of self.now.leaves) job ≢ [] }
        ensures held { IfOk result (λ captured. inputs_list captured.held ≡ read (state_of self.now).value (inputs_of (tree_of self.now.leaves) job)) }
        ensures given { IfOk result (λ captured. captured.given ≡ captured.held) }
        ensures prior { IfOk result (λ captured. captured.prior ≡ (state_of self.now).done (code_of job)) }
    {
        let held = self.inputs(job)?;
        let given = held.share()?;
        let prior = self.prior(job)?;
        Ok(Captured { held, given, prior })
    }
}

/// A second owner of the marks, if there are some.
fn share_prior(marks: &Option<Marks>) -> Result<Option<Marks>, NoMemory>
    ensures { IfOk result (λ prior. prior ≡ marks.now) }
{
    match marks {
        Some(marks) => {
            let prior = marks.share()?;
            Ok(Some(prior))
        }
        None => Ok(None),
    }
}

impl Inputs {
    /// Second owners of the same inputs.
    pub(crate) fn share(&self) -> Result<Inputs, NoMemory>
        ensures { IfOk result (λ inputs. inputs ≡ self.now) }
    {
        match self {
            Inputs::One(first) => {
                let first = first.share()?;
                Ok(Inputs::One(first))
            }
            Inputs::Two(first, second) => {
                let first = first.share()?;
                let second = second.share()?;
                Ok(Inputs::Two(first, second))
            }
        }
    }
}
