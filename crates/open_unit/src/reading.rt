//! What a unit reads of a component.
ghost use Rattle.std.specs.Prelude.{◌≡◌};
ghost use Rattle.open_unit.specs.Readings.{as_read};

use fare_law::{Carrier, FareKind, Piece, Place, Rule};
use std::marker::Model;

/// What a unit reads of a component. Its rule is borrowed, so that one may be asked of many units without a copy.
/// Contracts see a piece, whose fare has no basis and costs nothing.
#[derive(Drop)]
pub struct Facts<'a> {
    /// Where the component begins, and the local day of departure of its first flight. (The two places stand apart, since
    /// bytes side by side are copied together, which takes longer while they are being written.)
    pub begin: Place,
    pub first_day: i32,
    /// Where it ends, and the local day of departure of its last flight.
    pub end: Place,
    pub last_day: i32,
    /// Its fare's rule, the rule's number, and the fare's carrier and kind.
    pub rule: &'a Rule,
    pub number: u16,
    pub carrier: Carrier,
    pub kind: FareKind,
    /// Whether the fare is filed from the end to the beginning.
    pub reverse: bool,
    /// The day of sale.
    pub sale: i32,
}

impl<'a> Model for Facts<'a> {
    ghost use Rattle.std.specs.Prelude.{[]};
    ghost use Rattle.fare_law.specs.declared.tickets.Piece.{Piece as Read};

    ghost Value = { Read };

    ghost view = { λ f. record {
      begin = f.begin;
      end = f.end;
      fare = record {
        key = record { carrier = f.carrier; from = f.begin; to = f.end; basis = record { 0 = [] } };
        class = 0;
        kind = f.kind;
        amount = 0;
        rule = f.number;
      };
      rule = f.rule.now;
      reverse = f.reverse;
      first_day = f.first_day;
      last_day = f.last_day;
      sale = f.sale;
    } };
}

impl<'a> Facts<'a> {
    /// What a unit reads of a piece.
    pub fn of(piece: &'a Piece) -> Facts<'a>
        ensures { result ≡ as_read piece.now }
    {
        Facts {
            begin: piece.begin,
            end: piece.end,
            carrier: piece.fare.key.carrier,
            number: piece.fare.rule,
            kind: piece.fare.kind,
            rule: &piece.rule,
            reverse: piece.reverse,
            first_day: piece.first_day,
            last_day: piece.last_day,
            sale: piece.sale,
        }
    }
}
