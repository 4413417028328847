//! Passes over small stores, and keys of one leg and one row.
ghost use Rattle.std.specs.Prelude.{◌≡◌, ◌≤◌, IfOk};
ghost use Rattle.fare_component.specs.Keys.{IsKey};

use fare_law::{
    ArrayVec, Basis, Carrier, Fare, FareKey, FareKind, Flight, Leg, List, MarketSheet, Mem,
    OfferKey, Place, Rule, Shared, SheetRow,
};
use node_publish::{Kept, Node, NodeStore, StorePass, asks_same};
use std::alloc::Global;
use std::sync::Arc;
use std::test::Fail;

const LON: Place = Place(*b"LON");

const NYC: Place = Place(*b"NYC");

const OURS: Carrier = Carrier(*b"QX");

/// The key of QX 101 on 2031-03-03 and a sheet of one fare of that amount.
fn key(alloc: Global, amount: u16) -> Result<OfferKey, Mem>
    ensures { IfOk result IsKey }
{
    let mut legs = ArrayVec::new();
    legs.push(Leg {
        flight: Flight {
            carrier: OURS,
            number: 101,
            from: LON,
            to: NYC,
            day: 22341,
            minute: 600,
            dep: 32171640,
            arr: 32172120,
        },
        classes: 1 << 24,
    });
    let mut letters = ArrayVec::new();
    letters.push(b'Y');
    let mut rows = List::new(alloc);
    rows.push(SheetRow {
        fare: Fare {
            key: FareKey {
                carrier: OURS,
                from: LON,
                to: NYC,
                basis: Basis(letters),
            },
            class: 24,
            kind: FareKind::O,
            amount: u64::from(amount),
            rule: 0,
        },
        rule: Shared::new(alloc, Rule::default())?,
    })?;
    let sheet = MarketSheet::of(alloc, LON, NYC, rows)?;
    Ok(OfferKey {
        legs,
        sheet: Arc::new(alloc, sheet)?,
    })
}

/// The node of that key.
fn node(alloc: Global, amount: u16) -> Result<Node, Mem> {
    Node::build(alloc, key(alloc, amount)?)
}

/// The price of a node's first offer.
fn price(node: &Node) -> Option<u64> {
    node.offers.rows.as_slice().first().map(|offer| offer.price)
}

/// What was kept, or `None` for `NoRoom`.
fn kept(kept: Kept<'_>) -> Option<&Node> {
    match kept {
        Kept::Here(node) => Some(node),
        Kept::NoRoom => None,
    }
}

/// The price of what a pass keeps of that node, or `None` where there is no room.
fn keep(
    alloc: Global,
    store: &NodeStore,
    pass: &mut StorePass,
    node: &Node,
) -> Result<Option<u64>, Mem>
    requires { pass.old.cells ≡ store.now }
    ensures { pass.new.cells ≡ pass.old.cells }
{
    Ok(kept(store.keep(alloc, pass, node)?).and_then(price))
}

/// The price of what a pass finds by that key.
fn find(store: &NodeStore, pass: &mut StorePass, key: &OfferKey) -> Option<u64>
    requires { pass.old.cells ≡ store.now }
    ensures { pass.new.cells ≡ pass.old.cells }
{
    store.find(pass, key).and_then(price)
}

/// Whether the key asks for the same as itself, as another of the same amount, and as one of another amount.
fn same(alloc: Global) -> Result<[bool; 3], Mem> {
    let one = key(alloc, 20000)?;
    let other = key(alloc, 20000)?;
    let cheaper = key(alloc, 15000)?;
    Ok([
        asks_same(&one, &one),
        asks_same(&one, &other),
        asks_same(&one, &cheaper),
    ])
}

#[test]
fn tells_keys(rt: HostRuntime) {
    assert!(rt; same(rt.alloc()) == Ok([true, true, false]));
}

/// What a pass does: it keeps a node of the key of this amount, or finds what is kept by it, and is to tell this price.
type Deed = (bool, u16, Option<u64>);

const KEEPS: bool = true;

const FINDS: bool = false;

/// What a pass tells of a deed.
fn told(
    alloc: Global,
    store: &NodeStore,
    pass: &mut StorePass,
    deed: &Deed,
) -> Result<Option<u64>, Mem>
    requires { pass.old.cells ≡ store.now }
    ensures { pass.new.cells ≡ pass.old.cells }
{
    let node = node(alloc, deed.1)?;
    if deed.0 {
        keep(alloc, store, pass, &node)
    } else {
        Ok(find(store, pass, &node.key))
    }
}

/// Whether a pass that knows nothing yet tells what it is to tell.
fn tells(alloc: Global, store: &NodeStore, deeds: &[Deed]) -> Result<bool, Mem> {
    let mut pass = store.pass(alloc)?;
    for deed in deeds {
        if told(alloc, store, &mut pass, deed)? != deed.2 {
            return Ok(false);
        }
    }
    Ok(true)
}

/// Whether passes, one after the other, tell what they are to tell.
fn tell(alloc: Global, store: &NodeStore, passes: &[&[Deed]]) -> Result<bool, Mem> {
    for deeds in passes {
        if !tells(alloc, store, deeds)? {
            return Ok(false);
        }
    }
    Ok(true)
}

/// What a pass finds in one empty cell and keeps there, what a second one keeps by the same key and by another one, and what a
/// third one finds by both.
const ONE_CELL: [&[Deed]; 3] = [
    &[(FINDS, 20000, None), (KEEPS, 20000, Some(20000))],
    &[(KEEPS, 20000, Some(20000)), (KEEPS, 15000, None)],
    &[(FINDS, 20000, Some(20000)), (FINDS, 15000, None)],
];

#[test]
fn keeps_in_one_cell(rt: HostRuntime) -> Result<(), Fail> {
    let store = NodeStore::new(rt.alloc(), 1)?;
    assert!(rt; tell(rt.alloc(), &store, &ONE_CELL)?);
    Ok(())
}

/// Whether two nodes that two passes built of one key, each before either was kept, are both kept, with the same key and offers.
fn by_two(alloc: Global, store: &NodeStore) -> Result<bool, Mem> {
    let one = node(alloc, 20000)?;
    let other = node(alloc, 20000)?;
    are_kept(alloc, store, &one, &other)
}

/// Whether two passes keep these nodes, one each, with the same key and offers.
fn are_kept(alloc: Global, store: &NodeStore, one: &Node, other: &Node) -> Result<bool, Mem> {
    let mut first = store.pass(alloc)?;
    let mut second = store.pass(alloc)?;
    let here = kept(store.keep(alloc, &mut first, one)?);
    let there = kept(store.keep(alloc, &mut second, other)?);
    Ok(are_one(here, there))
}

/// Whether both are there, with the same key and offers.
fn are_one(one: Option<&Node>, other: Option<&Node>) -> bool {
    match (one, other) {
        (Some(one), Some(other)) => {
            asks_same(&one.key, &other.key)
                && one.offers.rows.as_slice() == other.offers.rows.as_slice()
        }
        _ => false,
    }
}

#[test]
fn keeps_what_two_passes_built(rt: HostRuntime) -> Result<(), Fail> {
    let store = NodeStore::new(rt.alloc(), 16)?;
    assert!(rt; by_two(rt.alloc(), &store)?);
    Ok(())
}

/// What a pass keeps, and another one finds, by nine keys of one home.
const NINE_KEYS: [&[Deed]; 2] = [
    &[
        (KEEPS, 0, Some(0)),
        (KEEPS, 1, Some(1)),
        (KEEPS, 2, Some(2)),
        (KEEPS, 3, Some(3)),
        (KEEPS, 4, Some(4)),
        (KEEPS, 5, Some(5)),
        (KEEPS, 6, Some(6)),
        (KEEPS, 7, Some(7)),
        (KEEPS, 8, None),
    ],
    &[
        (FINDS, 0, Some(0)),
        (FINDS, 1, Some(1)),
        (FINDS, 2, Some(2)),
        (FINDS, 3, Some(3)),
        (FINDS, 4, Some(4)),
        (FINDS, 5, Some(5)),
        (FINDS, 6, Some(6)),
        (FINDS, 7, Some(7)),
        (FINDS, 8, None),
    ],
];

/// The ninth key of one home finds no room in a store of many cells; the others are found in each of its eight home cells, by a pass
/// that kept none of them. It fails where only the first home cell is read.
#[test]
fn fills_eight_cells(rt: HostRuntime) -> Result<(), Fail> {
    let store = NodeStore::new(rt.alloc(), 16)?;
    assert!(rt; tell(rt.alloc(), &store, &NINE_KEYS)?);
    Ok(())
}
