//! The code of a move.
use fare_law::{ArrayVec, Basis, Carrier, Move, Role};
use ticket_order::code;

fn basis(text: [u8; 2]) -> Basis {
    let [first, second] = text;
    let mut characters = ArrayVec::new();
    characters.push(first);
    characters.push(second);
    Basis(characters)
}

fn flights(number: u32) -> ArrayVec<u32, 4> {
    let mut flights = ArrayVec::new();
    flights.push(number);
    flights
}

#[test]
fn gives_the_code_of_a_move(rt: HostRuntime) {
    let alone = Move {
        flights: flights(0),
        carrier: Carrier(*b"QX"),
        basis: basis(*b"Y1"),
        role: Role::Alone,
        slot: 0,
    };
    let code = code(&[alone]);
    assert_eq!(rt;
        code.as_slice(),
        [1, 0, 1033, 3327747152473, 0, 0].as_slice()
    );
}
