//! The lists of positions and of open units by numbers, each made once.
ghost use Rattle.std.specs.Prelude.{◌≡◌, ◌≢◌, ◌<◌, IfOk, IfSome, List as Items, OnOk, Some, length, slice_get};
ghost use Rattle.fare_law.specs.declared.requests.Request.{Request as Asked};
ghost use Rattle.fare_law.specs.Limits.{IsRequest};
ghost use Rattle.residual_table.specs.Keys.{Grows, HasSlot, KeepsNumbers};
ghost use Rattle.search_steps.specs.declared.tables.PositionTable.{PositionTable as Table};
ghost use Rattle.search_steps.specs.Numbers.{AreBare, ArePositionSteps, AreStepLists, IsUnitList, ListsAt, StepsAt, UnitStandsAt, UnitStepsAt};
ghost use Rattle.search_steps.specs.Tables.{AreTables, HasTable};

use crate::Case;
use crate::listing::{Doing, Listing, TableSteps, make_list};
use crate::numbered::{PositionSteps, StepLists, UnitSlot, UnitSteps};
use crate::runs::run_lengths;
use crate::stepping::bare_steps;
use crate::tables::{PositionTable, Tables};
use crate::unit_spots::{add_place, find_unit_steps, unit_at};
use fare_law::Mem;
use residual_table::ResidualParts;
use std::alloc::Global;

/// So many lists of open units have room from the first on, and so many steps of them: what isn't written takes no memory, and
/// long lists needn't be copied as they grow. More would cost each cell of a calendar, which asks for all of it anew.
const MANY: usize = 16_384;

impl StepLists {
    /// Where the lists of a position stand. They are made where they aren't known.
    pub fn find(
        &mut self,
        alloc: Global,
        case: &Case,
        tables: &mut Tables,
        position: u32,
    ) -> Result<usize, Mem>
        requires request { IsRequest case.now.request.now }
        requires number { position < length self.old.numbers.positions }
        requires tables { AreTables case.now.book.now case.now.request.now tables.old }
        requires right { AreStepLists case.now.request.now tables.old.kept.items self.old }
        ensures tables { AreTables case.now.book.now case.now.request.now tables.new }
        ensures right { AreStepLists case.now.request.now tables.new.kept.items self.new }
        ensures grows { Grows self.old.numbers self.new.numbers }
        ensures found { IfOk result (StepsAt self.new.positions.items position) }
    {
        let guess = self.places.get(position as usize);
        if let Some(at) = position_at(self.positions.as_slice(), guess, position) {
            return Ok(at);
        }
        let steps = self.made_position(alloc, case, tables, position)?;
        let at = self.positions.len();
        self.places.widen(position as usize + 1)?;
        self.places.put(position as usize, at);
        self.positions.push(steps)?;
        Ok(at)
    }

    /// Where the list of an open unit stands. It is made where it isn't known. None for the slot of none.
    pub fn find_unit(
        &mut self,
        alloc: Global,
        case: &Case,
        tables: &Tables,
        at: usize,
        key: UnitSlot,
    ) -> Result<Option<usize>, Mem>
        requires lists { ListsAt self.old.positions.items at key.place }
        requires request { IsRequest case.now.request.now }
        requires slot { HasSlot self.old.numbers.units key.slot }
        requires place { HasTable tables.now.kept.items key.place }
        requires tables { AreTables case.now.book.now case.now.request.now tables.now }
        requires right { AreStepLists case.now.request.now tables.now.kept.items self.old }
        ensures right { AreStepLists case.now.request.now tables.now.kept.items self.new }
        ensures grows { Grows self.old.numbers self.new.numbers }
        ensures positions { self.new.positions.items ≡ self.old.positions.items }
        ensures stays { KeepsNumbers self.old.units.items self.new.units.items }
        ensures found { IfOk result (UnitStepsAt self.new.units.items key.place key.slot) }
    {
        if key.slot == 0 {
            return Ok(None);
        }
        let spot = self.unit_places.near_spot(key.slot, key.place);
        let guess = self.unit_places.get(spot);
        if let Some(found) = unit_at(self.units.as_slice(), guess, &key) {
            return Ok(Some(found));
        }
        let found = self.find_elsewhere(alloc, case, tables, at, key)?;
        Ok(Some(found))
    }

    /// Where the list of an open unit stands, which isn't at the first spot of its key. It is made where it isn't known.
    /// Apart, so that what stands at its first spot costs little.
    #[inline(never)]
    fn find_elsewhere(
        &mut self,
        alloc: Global,
        case: &Case,
        tables: &Tables,
        at: usize,
        key: UnitSlot,
    ) -> Result<usize, Mem>
        requires lists { ListsAt self.old.positions.items at key.place }
        requires request { IsRequest case.now.request.now }
        requires slot { HasSlot self.old.numbers.units key.slot }
        requires is_open { key.slot ≢ 0 }
        requires place { HasTable tables.now.kept.items key.place }
        requires tables { AreTables case.now.book.now case.now.request.now tables.now }
        requires right { AreStepLists case.now.request.now tables.now.kept.items self.old }
        ensures right { AreStepLists case.now.request.now tables.now.kept.items self.new }
        ensures grows { Grows self.old.numbers self.new.numbers }
        ensures positions { self.new.positions.items ≡ self.old.positions.items }
        ensures stays { KeepsNumbers self.old.units.items self.new.units.items }
        ensures found { IfOk result (UnitStandsAt self.new.units.items key.place key.slot) }
    {
        let known = find_unit_steps(self.units.as_slice(), &self.unit_places, &key);
        if let Some(found) = known {
            return Ok(found);
        }
        self.make_unit(alloc, case, tables, at, key)?;
        add_place(alloc, &mut self.unit_places, self.units.as_slice(), &key)?;
        self.add_made(key)
    }

    /// Adds the list that was made, of an open unit, and tells where it stands.
    fn add_made(&mut self, key: UnitSlot) -> Result<usize, Mem>
        requires { key.slot ≢ 0 }
        ensures numbers { self.new.numbers ≡ self.old.numbers }
        ensures positions { self.new.positions.items ≡ self.old.positions.items }
        ensures stays { KeepsNumbers self.old.units.items self.new.units.items }
        ensures right { (q : Asked) (ts : Items Table) → AreStepLists q ts self.old → IsUnitList q self.old.numbers ts key self.old.made.items → AreStepLists q ts self.new }
        ensures found { IfOk result (UnitStandsAt self.new.units.items key.place key.slot) }
    {
        self.have_room()?;
        let at = self.units.len();
        let begin = self.unit_steps.len();
        self.unit_steps.extend_from_slice(self.made.as_slice())?;
        let end = self.unit_steps.len();
        self.units.push(UnitSteps {
            place: key.place,
            slot: key.slot,
            begin,
            end,
        })?;
        Ok(at)
    }

    /// Has room for many lists of open units before the first of them stands.
    fn have_room(&mut self) -> Result<(), Mem>
        ensures numbers { self.new.numbers ≡ self.old.numbers }
        ensures positions { self.new.positions.items ≡ self.old.positions.items }
        ensures units { self.new.units.items ≡ self.old.units.items }
        ensures steps { self.new.unit_steps.items ≡ self.old.unit_steps.items }
        ensures made { self.new.made.items ≡ self.old.made.items }
    {
        if self.units.is_empty() {
            self.units.reserve(MANY)?;
            self.unit_steps.reserve(MANY)?;
        }
        Ok(())
    }

    /// The lists of a position, which stand nowhere yet.
    fn made_position(
        &mut self,
        alloc: Global,
        case: &Case,
        tables: &mut Tables,
        position: u32,
    ) -> Result<PositionSteps, Mem>
        requires request { IsRequest case.now.request.now }
        requires number { position < length self.old.numbers.positions }
        requires tables { AreTables case.now.book.now case.now.request.now tables.old }
        requires right { AreStepLists case.now.request.now tables.old.kept.items self.old }
        ensures tables { AreTables case.now.book.now case.now.request.now tables.new }
        ensures right { AreStepLists case.now.request.now tables.new.kept.items self.new }
        ensures grows { Grows self.old.numbers self.new.numbers }
        ensures steps { IfOk result (ArePositionSteps case.now.request.now self.new.numbers tables.new.kept.items) }
        ensures position { IfOk result (λ s. s.position ≡ position) }
    {
        position_steps(alloc, case, tables, &mut self.numbers, position)
    }

    /// Makes the list of an open unit, which stands nowhere yet.
    fn make_unit(
        &mut self,
        alloc: Global,
        case: &Case,
        tables: &Tables,
        at: usize,
        key: UnitSlot,
    ) -> Result<(), Mem>
        requires lists { ListsAt self.old.positions.items at key.place }
        requires request { IsRequest case.now.request.now }
        requires slot { HasSlot self.old.numbers.units key.slot }
        requires is_open { key.slot ≢ 0 }
        requires place { HasTable tables.now.kept.items key.place }
        requires tables { AreTables case.now.book.now case.now.request.now tables.now }
        requires right { AreStepLists case.now.request.now tables.now.kept.items self.old }
        ensures right { AreStepLists case.now.request.now tables.now.kept.items self.new }
        ensures grows { Grows self.old.numbers self.new.numbers }
        ensures positions { self.new.positions.items ≡ self.old.positions.items }
        ensures stays { KeepsNumbers self.old.units.items self.new.units.items }
        ensures made { OnOk result (IsUnitList case.now.request.now self.new.numbers tables.now.kept.items key self.new.made.items) }
    {
        let Some(unit) = self.numbers.unit_in(key.slot) else {
            unreachable!()
        };
        let table = &tables.kept[key.place];
        let listing = listing(case, table, Doing::Joining(unit));
        let steps = &self.positions[at];
        let entries = TableSteps {
            entries: table.entries.as_slice(),
            bare: steps.bare.as_slice(),
            runs: steps.runs.as_slice(),
        };
        self.made.clear();
        make_list(alloc, &mut self.made, &mut self.numbers, &listing, &entries)
    }
}

/// The lists of a position by numbers.
fn position_steps(
    alloc: Global,
    case: &Case,
    tables: &mut Tables,
    numbers: &mut ResidualParts,
    position: u32,
) -> Result<PositionSteps, Mem>
    requires request { IsRequest case.now.request.now }
    requires number { position < length numbers.old.positions }
    requires tables { AreTables case.now.book.now case.now.request.now tables.old }
    ensures tables { AreTables case.now.book.now case.now.request.now tables.new }
    ensures stays { KeepsNumbers tables.old.kept.items tables.new.kept.items }
    ensures grows { Grows numbers.old numbers.new }
    ensures steps { IfOk result (ArePositionSteps case.now.request.now numbers.new tables.new.kept.items) }
    ensures position { IfOk result (λ s. s.position ≡ position) }
{
    let at = numbers.position_at(position);
    let place = tables.find(alloc, case, &at)?;
    let table = &tables.kept[place];
    let entries = table.entries.as_slice();
    let bare = bare_steps(alloc, numbers, entries)?;
    let runs = run_lengths(alloc, entries, bare.as_slice())?;
    let steps = TableSteps {
        entries,
        bare: bare.as_slice(),
        runs: runs.as_slice(),
    };
    let mut alone = Vec::new(alloc);
    let doing = listing(case, table, Doing::Alone);
    make_list(alloc, &mut alone, numbers, &doing, &steps)?;
    let mut opening = Vec::new(alloc);
    let doing = listing(case, table, Doing::Opening);
    make_list(alloc, &mut opening, numbers, &doing, &steps)?;
    Ok(PositionSteps {
        position,
        place,
        alone,
        opening,
        bare,
        runs,
    })
}

/// A list of what the components of a table do.
fn listing(case: &Case, table: &PositionTable, doing: Doing) -> Listing
    ensures { result ≡ record { doing = doing; begin = table.now.at.place; sale = case.now.request.now.sale } }
{
    Listing {
        doing,
        begin: table.at.place,
        sale: case.request.sale,
    }
}

/// The place, if the lists of the position stand there.
fn position_at(positions: &[PositionSteps], at: Option<usize>, position: u32) -> Option<usize>
    ensures { IfSome result (StepsAt positions.now position) }
{
    let at = at?;
    let steps = positions.get(at)?;
    if steps.position == position {
        Some(at)
    } else {
        None
    }
}
