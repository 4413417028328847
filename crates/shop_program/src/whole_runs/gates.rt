//! A gate that holds the clerk and desks, and counts what they do.
use fare_law::Gate;
use std::sync::atomic::{AtomicU64, Ordering};

/// Whom a gate holds.
#[derive(Clone, Copy)]
pub enum Plan {
    /// The clerk until the first desk builds a node, and the first desk, which has looked by then, until the second one has an answer.
    Overtake,
    /// The clerk until the first desk has an answer.
    AnswerFirst,
}

/// Holds the clerk and the first desk by its plan, each for so many turns at most, and counts the filings, the nodes that are built,
/// the answers, and how often one was held for too long.
#[derive(Drop)]
pub struct Holding {
    plan: Plan,
    filings: AtomicU64,
    first_built: AtomicU64,
    second_built: AtomicU64,
    first_answers: AtomicU64,
    second_answers: AtomicU64,
    given_up: AtomicU64,
}

/// Counts that something came once more.
fn raise(times: &AtomicU64) {
    times.fetch_add(1, Ordering::SeqCst);
}

const MOST_TURNS: u64 = 1_000_000_000;

impl Holding {
    pub fn by(plan: Plan) -> Holding {
        Holding {
            plan,
            filings: AtomicU64::new(0),
            first_built: AtomicU64::new(0),
            second_built: AtomicU64::new(0),
            first_answers: AtomicU64::new(0),
            second_answers: AtomicU64::new(0),
            given_up: AtomicU64::new(0),
        }
    }

    /// How many filings came.
    pub fn filings(&self) -> u64 {
        self.filings.load(Ordering::SeqCst)
    }

    /// How many nodes the first desk built, and the others.
    pub fn built(&self) -> (u64, u64) {
        (
            self.first_built.load(Ordering::SeqCst),
            self.second_built.load(Ordering::SeqCst),
        )
    }

    /// How often one was held for too long.
    pub fn given_up(&self) -> u64 {
        self.given_up.load(Ordering::SeqCst)
    }

    fn hold(&self, until: &AtomicU64) {
        for _ in 0..MOST_TURNS {
            if until.load(Ordering::SeqCst) > 0 {
                return;
            }
        }
        raise(&self.given_up);
    }
}

impl Gate for Holding {
    fn pass(&self, desk: u32) {
        match (desk, self.plan) {
            (0, Plan::Overtake) => {
                raise(&self.filings);
                self.hold(&self.first_built);
            }
            (0, Plan::AnswerFirst) => {
                raise(&self.filings);
                self.hold(&self.first_answers);
            }
            (1, Plan::Overtake) => {
                raise(&self.first_built);
                self.hold(&self.second_answers);
            }
            (1, Plan::AnswerFirst) => raise(&self.first_built),
            _ => raise(&self.second_built),
        }
    }

    fn done(&self, desk: u32) {
        if desk == 1 {
            raise(&self.first_answers);
        } else {
            raise(&self.second_answers);
        }
    }
}
