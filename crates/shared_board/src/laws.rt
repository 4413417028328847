//! The law of what two passes hold.
ghost use Rattle.std.specs.Prelude.{ℕ, Option};
ghost use Rattle.atomic_table.specs.Table.{State};
ghost use Rattle.shared_board.specs.Standing.{AreApart, Stands};
ghost use Rattle.shared_board.specs.declared.mark.Mark.{Mark};

/// Where the rule of a board stands, as it does between any two steps on its table, no two seats show that they hold one
/// slot. A pass is a seat that shows the slot that it holds, by its type. So two passes of a board never hold one slot.
pub fn slots_are_apart<T>()
    ensures { (number : ℕ) (s : State (Option T) (Option Mark)) → Stands number s → AreApart s.views }
{}
