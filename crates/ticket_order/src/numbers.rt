//! The numbers of moves, of carriers and of bases.
ghost use Rattle.std.specs.Prelude.{◌≡◌, ◌+◌, ◌≤◌, ◌∷◌, ◌++◌, length, option_map, slice_get, unwrap_or};
ghost use Rattle.fare_law.specs.Codes.{move_code, role_code, run_code, basis_number, carrier_number, character_value};

use fare_law::{
    ArrayVec, Basis, CODE_NUMBERS_OF_A_MOVE, Carrier, Code, MOST_COMPONENTS,
    MOST_FLIGHTS_OF_A_COMPONENT, Move, Role,
};

/// The code of at most `MOST_COMPONENTS` moves: of each move the count of its flights, their numbers, the
/// carrier's number, the basis's number, the role from 0 to 3, and the slot.
pub fn code(moves: &[Move]) -> Code
    requires { length moves.now ≤ MOST_COMPONENTS }
    ensures { result ≡ run_code moves.now }
{
    let mut code = Code::new();
    for m in moves {
        push_move(&mut code, m);
    }
    code
}

/// Adds the code of one move.
fn push_move(code: &mut Code, m: &Move)
    requires { length code.old ≤ 153 }
    ensures code { code.new ≡ code.old ++ move_code m.now }
    ensures fits { length code.new ≤ length code.old + CODE_NUMBERS_OF_A_MOVE }
{
    let numbers = move_code(m);
    for number in numbers.as_slice() {
        code.push(*number);
    }
}

/// The code of one move: the count of its flights, their numbers, the carrier's number, the basis's
/// number, the role from 0 to 3, and the slot.
pub fn move_code(m: &Move) -> ArrayVec<u64, CODE_NUMBERS_OF_A_MOVE>
    ensures { result ≡ move_code m.now }
{
    let mut numbers = flight_numbers(m.flights.as_slice());
    numbers.push(carrier_number(m.carrier));
    numbers.push(basis_number(&m.basis));
    numbers.push(role_number(m.role));
    numbers.push(u64::from(m.slot));
    numbers
}

/// The count of at most four flights and their numbers.
fn flight_numbers(flights: &[u32]) -> ArrayVec<u64, CODE_NUMBERS_OF_A_MOVE>
    requires { length flights.now ≤ MOST_FLIGHTS_OF_A_COMPONENT }
    ensures { result ≡ length flights.now ∷ flights.now }
{
    let mut numbers = ArrayVec::new();
    numbers.push(flights.len() as u64);
    for flight in flights {
        numbers.push(u64::from(*flight));
    }
    numbers
}

/// The number of a carrier: 37 times its first character's value and the second's.
fn carrier_number(carrier: Carrier) -> u64
    ensures { result ≡ carrier_number carrier }
{
    let [first, second] = carrier.0;
    character_value(first) * 37 + character_value(second)
}

/// The number of a basis: its characters' values to the base of 37, in eight places.
fn basis_number(basis: &Basis) -> u64
    ensures { result ≡ basis_number basis.now }
{
    let characters = basis.0.as_slice();
    let mut number = 0;
    for place in 0..8 {
        number = number * 37 + value_at(characters, place);
    }
    number
}

/// The value of the character at a place, or 0 past the end.
fn value_at(characters: &[u8], place: usize) -> u64
    ensures value { result ≡ unwrap_or (option_map character_value (slice_get characters.now place)) 0 }
    ensures small { result ≤ 201 }
{
    match characters.get(place) {
        Some(character) => character_value(*character),
        None => 0,
    }
}

/// 1 to 10 for a digit, 11 to 36 for a capital.
fn character_value(character: u8) -> u64
    ensures value { result ≡ character_value character }
    ensures small { result ≤ 201 }
{
    let value = if character <= b'9' {
        character.saturating_sub(47)
    } else {
        character.saturating_sub(54)
    };
    u64::from(value)
}

/// The number of a role.
fn role_number(role: Role) -> u64
    ensures { result ≡ role_code role }
{
    role as u64
}
