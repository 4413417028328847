//! The moves that numbers are the code of.
ghost use Rattle.std.specs.Prelude.{◌≡◌, ◌↔◌, ◌≤◌, ◌<◌, ◌^◌, ◌∷◌, ◌++◌, ℕ, List, length, IfNone, IfSome, Some};
ghost use Rattle.fare_law.specs.declared.moves.Move.{Move as AnyMove};
ghost use Rattle.fare_law.specs.declared.moves.Role.{Role as AnyRole};
ghost use Rattle.fare_law.specs.declared.names.Basis.{Basis as AnyBasis};
ghost use Rattle.fare_law.specs.declared.names.Carrier.{Carrier as AnyCarrier};
ghost use Rattle.fare_law.specs.Lists.{Each};
ghost use Rattle.fare_law.specs.Codes.{move_code, role_code, basis_number, carrier_number, character_value};
ghost use Rattle.fare_law.specs.Names.{IsBasis, IsCarrier, IsCharacter};
ghost use Rattle.ticket_order.specs.Coding.{IsCodeOf, IsMove};

use fare_law::{
    ArrayVec, Basis, Carrier, MOST_COMPONENTS, MOST_FLIGHTS_OF_A_COMPONENT, Move, Role,
};

/// The moves of a code. None exactly where the numbers are the code of no moves, or of more than `MOST_COMPONENTS`:
/// a move has at most four flights, and a carrier and a basis of their characters.
pub fn moves_of_code(code: &[u64]) -> Option<ArrayVec<Move, MOST_COMPONENTS>>
    ensures { (ms : List AnyMove) → (result ≡ Some ms) ↔ IsCodeOf code.now ms }
{
    let mut moves = ArrayVec::new();
    let mut rest = code;
    while !rest.is_empty() {
        if moves.is_full() {
            return None;
        }
        let (found, after) = first_move(rest)?;
        moves.push(found);
        rest = after;
    }
    Some(moves)
}

/// The move with whose code the numbers begin, and the numbers after it.
fn first_move(numbers: &[u64]) -> Option<(Move, &[u64])>
    ensures some { IfSome result (λ x. IsMove x.0 × (numbers.now ≡ move_code x.0 ++ x.1.now)) }
    ensures none { IfNone result ((m : AnyMove) (after : List ℕ) → IsMove m → numbers.now ≡ move_code m ++ after → ⊥) }
{
    let (flights, rest) = first_flights(numbers)?;
    let [carrier, basis, role, slot, after @ ..] = rest else {
        return None;
    };
    let found = Move {
        flights,
        carrier: carrier_of(*carrier)?,
        basis: basis_of(*basis)?,
        role: role_of_number(*role)?,
        slot: slot_of(*slot)?,
    };
    Some((found, after))
}

/// The flights with whose count the numbers begin, and the numbers after them.
fn first_flights(numbers: &[u64]) -> Option<(ArrayVec<u32, MOST_FLIGHTS_OF_A_COMPONENT>, &[u64])>
    ensures some { IfSome result (λ x. Each (λ n. n < 2 ^ 32) x.0 × (numbers.now ≡ length x.0 ∷ x.0 ++ x.1.now)) }
    ensures few { IfSome result (λ x. length x.0 ≤ MOST_FLIGHTS_OF_A_COMPONENT) }
    ensures none { IfNone result ((fs after : List ℕ) → length fs ≤ MOST_FLIGHTS_OF_A_COMPONENT → Each (λ n. n < 2 ^ 32) fs → numbers.now ≡ length fs ∷ fs ++ after → ⊥) }
{
    let [count, rest @ ..] = numbers else {
        return None;
    };
    if *count > MOST_FLIGHTS_OF_A_COMPONENT as u64 || *count > rest.len() as u64 {
        return None;
    }
    let (flights, after) = rest.split_at(*count as usize);
    Some((flights_of(flights)?, after))
}

/// Numbers of 32 bits.
fn flights_of(numbers: &[u64]) -> Option<ArrayVec<u32, MOST_FLIGHTS_OF_A_COMPONENT>>
    requires { length numbers.now ≤ MOST_FLIGHTS_OF_A_COMPONENT }
    ensures { (fs : List ℕ) → (result ≡ Some fs) ↔ ((fs ≡ numbers.now) × Each (λ n. n < 2 ^ 32) fs) }
{
    let mut flights = ArrayVec::new();
    for number in numbers {
        flights.push(u32::try_from(*number).ok()?);
    }
    Some(flights)
}

/// The carrier of a number.
fn carrier_of(number: u64) -> Option<Carrier>
    ensures { (c : AnyCarrier) → (result ≡ Some c) ↔ (IsCarrier c × (carrier_number c ≡ number)) }
{
    Some(Carrier([character_of(number / 37)?, character_of(number % 37)?]))
}

/// The basis of a number: the values of its characters stand in eight places, the last of them 0
/// where there are fewer.
fn basis_of(number: u64) -> Option<Basis>
    ensures { (b : AnyBasis) → (result ≡ Some b) ↔ (IsBasis b × (basis_number b ≡ number)) }
{
    let mut characters = ArrayVec::new();
    let mut rest = number;
    for place in 0..8 {
        if rest == 0 {
            break;
        }
        let unit = 37_u64.pow(7 - place);
        characters.push(character_of(rest / unit)?);
        rest %= unit;
    }
    if number == 0 || rest != 0 {
        return None;
    }
    Some(Basis(characters))
}

/// The digit or capital of a value.
fn character_of(value: u64) -> Option<u8>
    ensures { (c : ℕ) → (result ≡ Some c) ↔ (IsCharacter c × (character_value c ≡ value)) }
{
    match value {
        1..=10 => Some(value as u8 + 47),
        11..=36 => Some(value as u8 + 54),
        _ => None,
    }
}

/// The role of a number.
fn role_of_number(number: u64) -> Option<Role>
    ensures { (r : AnyRole) → (result ≡ Some r) ↔ (role_code r ≡ number) }
{
    match number {
        0 => Some(Role::Alone),
        1 => Some(Role::Opens),
        2 => Some(Role::GoesOn),
        3 => Some(Role::Closes),
        _ => None,
    }
}

/// A slot of 8 bits.
fn slot_of(number: u64) -> Option<u8>
    ensures { (slot : ℕ) → (result ≡ Some slot) ↔ ((slot ≡ number) × (slot < 2 ^ 8)) }
{
    u8::try_from(number).ok()
}
