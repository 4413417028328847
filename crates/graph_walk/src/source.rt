//! Steps from one state to others.
ghost use Rattle.std.specs.Prelude.{◌≡◌, ℕ, Option as Maybe, IfOk, OnOk};
ghost use Rattle.graph_walk.specs.Steps.{AreOutcomes, KeepsStates, LeadToLive, TellsStates, outcomes_of};

use crate::outcome::Outcome;
use std::alloc::{AllocError, Global};

/// What the moves of a state leave, within a context `C` that stays as it is. A key stands for a state, and goes on to
/// while more keys come to stand for others.
pub trait Steps<K: Eq, C> {
    ghost State: { Type 0 };
    // Whether the context is one in which this may be asked.
    ghost fits: { C → Self → Type 0 };
    // Whether a move of the state leaves this (none: the end) at this price.
    ghost leads: { C → State → Maybe State → ℕ → Type 0 };
    // What each move raises.
    ghost level: { State → ℕ };
    // What asking for the outcomes of a state makes true of it, for good.
    ghost known: { C → Self → State → Type 0 };
    // What stays of the one while it becomes the other.
    ghost later: { Self → Self → Type 0 };
    // Whether a key stands for a state.
    ghost live: { Self → K → Type 0 };
    // The state.
    ghost state: { Self → K → State };

    /// The outcomes of a state.
    fn outcomes(
        &mut self,
        alloc: Global,
        context: &C,
        key: K,
    ) -> Result<Vec<Outcome<K>>, AllocError>
        requires fits { fits context.now self.old }
        requires live { live self.old key }
        requires tells { TellsStates (live self.old) (state self.old) K.eq }
        ensures outcomes { IfOk result (λ v. AreOutcomes (leads context.now) (state self.old key) (outcomes_of (state self.new) v.items)) }
        ensures live { IfOk result (λ v. LeadToLive (live self.new) v.items) }
        ensures tells { OnOk result (TellsStates (live self.new) (state self.new) K.eq) }
        ensures keeps { OnOk result (KeepsStates (live self.old) (live self.new) (state self.old) (state self.new)) }
        ensures asked { OnOk result (known context.now self.new (state self.old key)) }
        ensures later { later self.old self.new };

    /// Takes back a list that it gave, so that its room may serve for another one.
    fn take_back(&mut self, outcomes: Vec<Outcome<K>>)
        ensures { self.new ≡ self.old };

    ghost same: { (s : Self) → later s s };

    ghost further: { (s t u : Self) → later s t → later t u → later s u };

    ghost fitting: { (c : C) (s t : Self) → later s t → fits c s → fits c t };

    ghost stays: { (c : C) (s t : Self) (x : State) → later s t → known c s x → known c t x };
}
