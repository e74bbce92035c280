//! The machine that is handed on.
use crate::machine::Machine;
use lt_turn::Story;

/// The machine that workers hand on.
#[derive(Drop)]
pub struct Handed<M: Machine> {
    pub(crate) machine: M,
}

impl<M: Machine> Story for Handed<M> {
    type Opening = M::Basis;

    ghost opening = { λ h. (M.stand h.machine).basis };

    ghost journal = { λ h. (M.stand h.machine).pairs };

    fn entries(&self) -> u64 {
        self.machine.entries()
    }
}
