// Finding, keeping and dropping steps.
ghost use Rattle.std.specs.Prelude.{◌≡◌, not, [], length, IfOk, filter};
ghost use Rattle.states.specs.Sets.{shares};
ghost use Rattle.kept.specs.Steps.{found, keep, step};
ghost use Rattle.kept.specs.Tables.{steps};

use crate::kept::{Kept, LIMIT, Move};
use states::State;
use std::alloc::{AllocError, Global};

impl Kept {
    // A table with no step. It reserves all the memory that it will ever use, and is refused where there is too little.
    #[tactic(auto, unfolding(crate::specs::Tables::steps, crate::specs::Steps::zipped, crate::specs::Steps::distinct))]
    pub fn new(heap: Global) -> Result<Kept, AllocError>
        ensures { IfOk result (λ t. steps t ≡ []) }
    {
        Ok(Kept {
            codes: Vec::with_capacity(heap, LIMIT)?,
            moves: Vec::with_capacity(heap, LIMIT)?,
        })
    }

    // How many steps are kept.
    #[tactic(auto, using(crate::proofs::Tables::count_is))]
    pub fn len(&self) -> usize
        ensures { result ≡ length (steps self.now) }
    {
        self.codes.len()
    }

    // Where the kept step from this state by this code leads; none where no such step is kept.
    pub fn find(&self, state: State, code: u16) -> Option<State>
        ensures { result ≡ found (steps self.now) state code }
    {
        // The index is what the lists share: over a `zip` of them a search in a full table takes 0.53 microseconds instead of 0.36.
        let moves = self.moves.as_slice();
        for (i, kept) in self.codes.iter().enumerate() {
            if *kept == code && moves[i].state == state {
                return Some(moves[i].next);
            }
        }
        None
    }

    // Keeps one more step, unless `LIMIT` are kept or one from this state by this code is. It never allocates.
    #[tactic(auto, using(crate::proofs::Tables::count_is), unfolding(crate::specs::Steps::keep))]
    pub fn keep(&mut self, state: State, code: u16, next: State)
        ensures { steps self.new ≡ keep (steps self.old) (step state code next) }
    {
        if self.codes.len() >= LIMIT {
            return;
        }
        if self.find(state, code).is_some() {
            return;
        }
        self.codes.push_reserved(code);
        self.moves.push_reserved(Move { state, next });
    }

    // Drops exactly the steps whose state holds one of the positions; the others stay in their order.
    pub fn drop_touching(&mut self, positions: State)
        ensures { steps self.new ≡ filter (λ x. not (shares x.state positions)) (steps self.old) }
    {
        let stays = move |kept: &Move| !kept.state.touches(positions);
        let mut moves = self.moves.iter();
        self.codes.retain(move |_| moves.next().is_some_and(stays));
        self.moves.retain(stays);
    }
}
