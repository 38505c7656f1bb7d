ghost use Rattle.std.specs.Prelude.{◌≡◌, ℕ, ◌+◌, ◌≤◌, ◌<◌, length, IfOk, IfSome, OnOk};
ghost use Rattle.level_graph.specs.Levels.{IsPieceList};

use crate::numbered::Numbered;
use crate::states::LiftedState;
use arc_num::Memory;
use label_graph::{GraphArc, Piece};
use std::alloc::Global;
use weight_vec::Weights;

/// What was found so far. A finished state has the place of its label's number among the numbers.
#[derive(Drop)]
pub struct Search<const N: usize> {
    pub labels: Numbered<Weights<N>>,
    pub arcs: Numbered<GraphArc>,
    pub states: Numbered<LiftedState<N>>,
    pub numbers: Vec<u64>,
}

/// What lies behind a step: a finished state, by the number of its label, or one that is to be looked at.
#[derive(Clone, Copy, Debug)]
pub enum Ahead<const N: usize> {
    Known(u64),
    Lifted(LiftedState<N>),
}

/// A state that waits for what lies behind it. The number is that of the label behind its skip, once that is known.
#[derive(Clone, Copy, Debug)]
pub struct Frame<const N: usize> {
    pub state: LiftedState<N>,
    pub skip: Option<u64>,
}

impl<const N: usize> Search<N> {
    ghost use Rattle.std.specs.Prelude.{◌≡◌, ◌≤◌, length, IfOk, IfSome, OnOk};
    ghost use Rattle.lift_build.specs.inner.Searches.{IsSearch, HasNumber, IsAhead, IsNoted};

    /// The label of the target alone, with number 1.
    pub fn start(
        alloc: Global,
        pieces: &[Piece<N>],
        cap: &Weights<N>,
        room: u32,
    ) -> Result<Self, Memory>
        requires small { N ≤ 32 }
        ensures { IfOk result (IsSearch pieces.now cap.now room) }
    {
        let _count = pieces.len();
        let _room = room;
        let mut labels = Numbered::new(alloc);
        labels.insert(*cap)?;
        Ok(Search {
            labels,
            arcs: Numbered::new(alloc),
            states: Numbered::new(alloc),
            numbers: Vec::new(alloc),
        })
    }

    /// The number of the label of a state, if it is finished.
    pub fn number_of(&self, state: &LiftedState<N>) -> Option<u64>
        requires small { N ≤ 32 }
        requires count { length self.now.numbers.items ≡ length self.now.states }
        ensures { IfSome result (HasNumber self.now state.now) }
    {
        let place = self.states.number_of(state)?;
        Some(self.numbers[place as usize - 1])
    }

    /// What is known of a state.
    pub fn ahead_of(&self, state: LiftedState<N>) -> Ahead<N>
        requires small { N ≤ 32 }
        requires count { length self.now.numbers.items ≡ length self.now.states }
        ensures { IsAhead self.now state.entry result }
    {
        match self.number_of(&state) {
            Some(number) => Ahead::Known(number),
            None => Ahead::Lifted(state),
        }
    }

    /// Notes a finished state with the number of its label.
    pub fn note(&mut self, state: LiftedState<N>, number: u64) -> Result<(), Memory>
        requires small { N ≤ 32 }
        requires count { length self.old.numbers.items ≡ length self.old.states }
        ensures { OnOk result (IsNoted self.old self.new state.entry number) }
    {
        self.states.insert(state)?;
        if self.states.count() > self.numbers.len() {
            self.numbers.push(number)?;
        }
        Ok(())
    }
}
