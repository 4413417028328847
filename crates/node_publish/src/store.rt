//! Cells that nodes are kept in, and what a desk knows of them.
ghost use Rattle.std.specs.Prelude.{◌≡◌, ◌+◌, ◌%◌, ◌<◌, ◌≤◌, ◌^◌, ℕ, length, IsNone, IsSome, IsTrue, IfNone, IfOk, IfSome, OnErr, Some, None};
ghost use Rattle.std.specs.Option.{option_copied};
ghost use Rattle.fare_component.specs.Homes.{home_of};
ghost use Rattle.fare_component.specs.Keys.{Asked, asked};
ghost use Rattle.node_publish.specs.Found.{IsHere, IsKept};
ghost use Rattle.node_publish.specs.Homes.{HasNoRoom, Keeps, Knows, Published, ReadsAt, StaysPublished, at_cell, home, homes};

use crate::Node;
use crate::cells::settle;
use crate::keys::home_of;
use fare_law::{Mem, OfferKey};
use once_cell::race::{Note, OnceBox};
use std::alloc::Global;
use std::marker::Model;

/// Cells that nodes are kept in, each set once. Contracts see the names of the cells.
#[derive(Drop)]
pub struct NodeStore {
    cells: Vec<OnceBox<Node>>,
}

impl Model for NodeStore {
    ghost use Rattle.std.specs.Prelude.{ℕ, List, map, length, ◌<◌, ◌≤◌};
    ghost use Rattle.once_cell.specs.Once.{cell_name};

    ghost Value = { List ℕ };

    ghost view = { λ s. map cell_name s.cells.items };

    ghost invariant = { λ s. (0 < length s.cells.items) × (length s.cells.items ≤ 65536) };
}

/// What one desk knows of a store's cells. It is used with that store only.
#[derive(Drop)]
pub struct StorePass {
    notes: Vec<Note<Node>>,
}

impl Model for StorePass {
    ghost use Rattle.std.specs.Prelude.{map};
    ghost use Rattle.node_publish.specs.Homes.{Known};

    ghost Value = { Known };

    ghost view = { λ p. record { cells = map (λ n. n.cell) p.notes.items; known = map (λ n. n.known) p.notes.items } };
}

/// What came of keeping a node.
pub enum Kept<'a> {
    /// A node of the key stands in one of its home cells.
    Here(&'a Node),
    /// Every home cell holds a node of another key.
    NoRoom,
}

impl NodeStore {
    /// A store of so many empty cells, 1 to 65,536.
    pub fn new(alloc: Global, cells: u32) -> Result<NodeStore, Mem>
        requires { (0 < cells) × (cells ≤ 65536) }
        ensures { IfOk result (λ s. length s ≡ cells) }
    {
        let mut empty = Vec::new(alloc);
        for _ in 0..cells {
            empty.push(OnceBox::new(alloc))?;
        }
        Ok(NodeStore { cells: empty })
    }

    /// A pass that knows nothing yet.
    pub fn pass(&self, alloc: Global) -> Result<StorePass, Mem>
        ensures cells { IfOk result (λ p. p.cells ≡ self.now) }
        ensures known { IfOk result (λ p. (i : ℕ) → at_cell p i ≡ None) }
    {
        let mut notes = Vec::new(alloc);
        for cell in &self.cells {
            notes.push(cell.note())?;
        }
        Ok(StorePass { notes })
    }

    /// The node of the key, if its home cells have one. It never misses one that the pass knows.
    pub fn find<'a>(&'a self, pass: &mut StorePass, key: &OfferKey) -> Option<&'a Node>
        requires { pass.old.cells ≡ self.now }
        ensures keeps { Keeps pass.old pass.new }
        ensures stays { StaysPublished pass.old pass.new }
        ensures some { IfSome result (λ node. (node.now ≡ asked key.now) × Knows pass.new (asked key.now)) }
        ensures none { IfNone result (Knows pass.new (asked key.now) → ⊥) }
        ensures known { Knows pass.old (asked key.now) → IsSome result }
        ensures no_room { HasNoRoom pass.old (asked key.now) → IsNone result }
    {
        for j in 0..self.homes() {
            let at = self.home(key, j);
            if let Some(node) = self.read(pass, at) {
                if node.is_for(key) {
                    return Some(node);
                }
            }
        }
        None
    }

    /// Offers a copy of the node to its home cells in turn, until one holds a node of its key. `NoRoom`
    /// comes exactly where each holds a node of another key, and the pass then knows each of them.
    pub fn keep<'a>(
        &'a self,
        alloc: Global,
        pass: &mut StorePass,
        node: &Node,
    ) -> Result<Kept<'a>, Mem>
        requires { pass.old.cells ≡ self.now }
        ensures keeps { Keeps pass.old pass.new }
        ensures stays { StaysPublished pass.old pass.new }
        ensures kept { IfOk result (λ k. IsKept k node.now pass.new) }
        ensures no_room { HasNoRoom pass.old node.now → IfOk result (λ k. IsHere k → ⊥) }
    {
        for j in 0..self.homes() {
            let at = self.home(&node.key, j);
            let found = self.settle(alloc, pass, at, node)?;
            if found.is_for(&node.key) {
                return Ok(Kept::Here(found));
            }
        }
        Ok(Kept::NoRoom)
    }

    /// Whether a node stands in each home cell of the keys of this home. Then each of them is published: one of the nodes is its
    /// own, or there is no room for it.
    pub fn is_full(&self, pass: &mut StorePass, home: usize) -> bool
        requires own { pass.old.cells ≡ self.now }
        requires low { home < 2 ^ 50 }
        ensures keeps { Keeps pass.old pass.new }
        ensures stays { StaysPublished pass.old pass.new }
        ensures full { IsTrue result → (a : Asked) → home_of a ≡ home → Published pass.new a }
    {
        for j in 0..self.homes() {
            let at = self.cell(home, j);
            let Some(_node) = self.read(pass, at) else {
                return false;
            };
        }
        true
    }

    /// How many home cells a key has.
    fn homes(&self) -> usize
        ensures { result ≡ homes (length self.now) }
    {
        self.cells.len().min(8)
    }

    /// The j-th home cell of the key.
    fn home(&self, key: &OfferKey, j: usize) -> usize
        requires { j < 8 }
        ensures value { result ≡ home (length self.now) (asked key.now) j }
        ensures within { result < length self.now }
    {
        self.cell(home_of(key), j)
    }

    /// The j-th cell from this home on.
    fn cell(&self, home: usize, j: usize) -> usize
        requires low { home < 2 ^ 50 }
        requires few { j < 8 }
        ensures value { result ≡ (home + j) % length self.now }
        ensures within { result < length self.now }
    {
        (home + j) % self.cells.len()
    }

    fn read<'a>(&'a self, pass: &mut StorePass, at: usize) -> Option<&'a Node>
        requires own { pass.old.cells ≡ self.now }
        requires within { at < length self.now }
        ensures { ReadsAt pass.old pass.new at (option_copied result) }
    {
        self.cells[at].get_as(&mut pass.notes[at])
    }

    fn settle<'a>(
        &'a self,
        alloc: Global,
        pass: &mut StorePass,
        at: usize,
        node: &Node,
    ) -> Result<&'a Node, Mem>
        requires own { pass.old.cells ≡ self.now }
        requires within { at < length self.now }
        ensures ok { IfOk result (λ r. ReadsAt pass.old pass.new at (Some r.now)) }
        ensures err { OnErr result (Keeps pass.old pass.new) }
    {
        settle(alloc, &self.cells[at], &mut pass.notes[at], node)
    }
}
