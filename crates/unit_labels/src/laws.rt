//! The laws of labels and of units, for the crates above.
ghost use Rattle.unit_labels.specs.Labels.{LabelLaws};
ghost use Rattle.unit_labels.specs.UnitRuns.{Steps, UnitLaws};

/// A kind of open unit `U` over items `X`, for proofs alone: which items may stand alone, open, go on
/// and close, and what is open after them.
pub trait UnitSteps<X, U> {
    ghost steps: { Steps X U };
}

/// Labels are numbered from 1 by first appearance with at most two on both sides of each boundary
/// exactly where they are a run of the label machine over their parts: alone, opens, goes on, closes.
/// Those parts are the roles and slots of a ticket's code, and parts have one list of labels.
pub fn label_laws()
    ensures { LabelLaws }
{}

/// Units do not act on each other: items are a run over the open units exactly where their parts are a
/// run over labels and the items of each label are accepted by themselves, one by one.
pub fn unit_laws<X, U, K: UnitSteps<X, U>>()
    ensures { UnitLaws K.steps }
{}
