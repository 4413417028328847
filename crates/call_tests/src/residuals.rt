//! The texts of residuals.
use fare_law::{Carrier, Place};
use flight_paths::Position;
use open_unit::{CarrierMark, OpenUnit, RuleMark};
use residual_keys::{Residual, TicketPart, read_residual, residual_text};
use std::test::Fail;

fn opened() -> OpenUnit {
    OpenUnit {
        origin: Place(*b"LON"),
        end: Place(*b"NYC"),
        count: 1,
        first_day: 22341,
        least: None,
        greatest: None,
        by: None,
        kinds: 14,
        partner: 0,
        carrier: CarrierMark::One(Carrier(*b"QX")),
        rule: RuleMark::One(0),
    }
}

/// A position before a slice, at which no flight was taken.
fn before(slice: u8, place: [u8; 3], lo: u32, hi: u32) -> Position {
    Position {
        slice,
        leg: 0,
        place: Place(place),
        via: None,
        lo,
        hi,
    }
}

/// The ticket part after one fare of this carrier.
fn one_fare(carrier: [u8; 2]) -> TicketPart {
    TicketPart {
        units: 1,
        ends: 0,
        carrier: CarrierMark::One(Carrier(carrier)),
    }
}

/// The residual of a unit opened by this carrier's fare on this rule, NYC reached by its flights.
fn returning(carrier: [u8; 2], rule: u16, lo: u32, hi: u32, unit: OpenUnit) -> Option<Residual> {
    let unit = OpenUnit {
        carrier: CarrierMark::One(Carrier(carrier)),
        rule: RuleMark::One(rule),
        ..unit
    };
    Residual::checked(
        before(1, *b"NYC", lo, hi),
        Some(unit),
        None,
        one_fare(carrier),
    )
}

/// The residuals of three searches, with their texts.
fn written() -> [(Option<Residual>, &'static str); 10] {
    let none = TicketPart {
        units: 0,
        ends: 0,
        carrier: CarrierMark::NotYet,
    };
    let unit = opened();
    let week = OpenUnit {
        least: Some(22347),
        ..unit
    };
    let month = OpenUnit {
        least: Some(22347),
        greatest: Some(22371),
        kinds: 2,
        partner: 1,
        ..unit
    };
    let mixed = OpenUnit {
        by: Some(22400),
        carrier: CarrierMark::Mixed,
        rule: RuleMark::Mixed,
        ..unit
    };
    let inside = Position {
        leg: 2,
        via: Some(Place(*b"DUB")),
        ..before(0, *b"NYC", 7, 4294967295)
    };
    let all = TicketPart {
        units: 2,
        ends: 3,
        carrier: CarrierMark::Mixed,
    };
    [
        (
            Residual::checked(before(0, *b"LON", 0, 1), None, None, none),
            "0 0 LON - 0 1 - 0:0:-",
        ),
        (
            Residual::checked(before(1, *b"NYC", 1, 2), None, None, one_fare(*b"QX")),
            "1 0 NYC - 1 2 - 1:0:QX",
        ),
        (
            returning(*b"QX", 0, 1, 2, unit),
            "1 0 NYC - 1 2 LON>NYC:1:22341:-:-:-:14:0:QX:0 1:0:QX",
        ),
        (
            Residual::checked(before(0, *b"LON", 0, 3), None, None, none),
            "0 0 LON - 0 3 - 0:0:-",
        ),
        (
            Residual::checked(before(1, *b"NYC", 3, 5), None, None, one_fare(*b"EX")),
            "1 0 NYC - 3 5 - 1:0:EX",
        ),
        (
            returning(*b"BX", 0, 3, 5, unit),
            "1 0 NYC - 3 5 LON>NYC:1:22341:-:-:-:14:0:BX:0 1:0:BX",
        ),
        (
            returning(*b"EX", 0, 3, 5, unit),
            "1 0 NYC - 3 5 LON>NYC:1:22341:-:-:-:14:0:EX:0 1:0:EX",
        ),
        (
            returning(*b"EX", 1, 3, 5, week),
            "1 0 NYC - 3 5 LON>NYC:1:22341:22347:-:-:14:0:EX:1 1:0:EX",
        ),
        (
            returning(*b"BX", 1, 3, 5, month),
            "1 0 NYC - 3 5 LON>NYC:1:22341:22347:22371:-:2:1:BX:1 1:0:BX",
        ),
        (
            Residual::checked(inside, Some(mixed), Some(unit), all),
            "0 2 NYC DUB 7 4294967295 LON>NYC:1:22341:-:-:22400:14:0:*:*/LON>NYC:1:22341:-:-:-:14:0:QX:0 2:3:*",
        ),
    ]
}

#[test]
fn writes_and_reads_residuals(rt: HostRuntime) -> Result<(), Fail> {
    for (residual, text) in written() {
        assert_eq!(rt; read_residual(text.as_bytes()), residual, "{text}");
        if let Some(residual) = residual {
            let bytes = residual_text(rt.alloc(), &residual)?;
            assert_eq!(rt; bytes.as_slice(), text.as_bytes());
        }
    }
    Ok(())
}

#[test]
fn reads_no_other_text(rt: HostRuntime) {
    let others = [
        ("three units begun", "0 0 LON - 0 1 - 3:0:-"),
        ("a leading zero", "0 0 LON - 0 01 - 0:0:-"),
        ("a flight past its field", "0 0 LON - 0 4294967296 - 0:0:-"),
        (
            "four components",
            "1 0 NYC - 1 2 LON>NYC:4:22341:-:-:-:14:0:QX:0 1:0:QX",
        ),
        ("no text", ""),
    ];
    for (name, text) in others {
        assert_eq!(rt; read_residual(text.as_bytes()), None, "{name}");
    }
}
