//! Those who answer requests.
ghost use Rattle.std.specs.Prelude.{◌≡◌, ◌<◌, ◌≤◌, ℕ, List, length, IfOk};
ghost use Rattle.std.specs.Arc.{arc_value};
ghost use Rattle.fare_versions.specs.Histories.{House as HouseName};
ghost use Rattle.fare_law.specs.Book.{Timetable};
ghost use Rattle.fare_law.specs.Lists.{IsPrefix};
ghost use Rattle.fare_law.specs.declared.filings.Filing.{Filing as Entry};
ghost use Rattle.serve_desks.specs.Terms.{IsRight, Terms};
ghost use Rattle.serve_desks.specs.Wants.{CountsWants};
ghost use Rattle.serve_desks.specs.declared.log.Body.{Body as Answer};
ghost use Rattle.serve_desks.specs.declared.workload.Ask.{Ask as Asked};

use crate::Reply;
use fare_book::Book;
use fare_law::Mem;
use fare_versions::Receipt;
use std::alloc::Global;
use std::sync::Arc;

/// One that answers requests of some desks, each by the number of an ask, counted from 1. Where memory was wanting once
/// it is asked nothing more.
pub trait Teller: Drop {
    // The history that it follows.
    ghost house: { Self → HouseName };

    // What was filed up to the version that it saw last.
    ghost seen: { Self → List Entry };

    // The longest history that it was told of.
    ghost told: { Self → List Entry };

    // What it is asked, and over which timetable.
    ghost terms: { Self → Terms };

    // At how many questions it wanted memory.
    ghost wants: { Self → ℕ };

    // Whether a body is right for an ask, over a timetable and what was filed.
    ghost right: { Asked → Timetable → List Entry → Answer → Type 0 };

    /// Looks once, and answers the ask from that version: one with all that it had seen and was told of.
    fn answer(&mut self, alloc: Global, request: u32) -> Result<Reply, Mem>
        requires request { (0 < request) × (request ≤ length (terms self.old).asks) }
        requires ample { wants self.old ≡ 0 }
        ensures same { (house self.new ≡ house self.old) × (terms self.new ≡ terms self.old) × (told self.new ≡ told self.old) }
        ensures wants { CountsWants (wants self.old) (wants self.new) result }
        ensures seen { IsPrefix (seen self.old) (seen self.new) }
        ensures answer { IfOk result (λ r. (r.number ≡ length (seen self.new)) × IsPrefix (told self.old) (seen self.new) × IsRight right (terms self.old) request (seen self.new) r.body) };

    /// Answers the ask from this book.
    fn answer_from(&mut self, alloc: Global, book: &Arc<Book>, request: u32) -> Result<Reply, Mem>
        requires timetable { (arc_value book.now).timetable ≡ (terms self.old).timetable }
        requires request { (0 < request) × (request ≤ length (terms self.old).asks) }
        requires ample { wants self.old ≡ 0 }
        ensures same { (house self.new ≡ house self.old) × (terms self.new ≡ terms self.old) × (told self.new ≡ told self.old) × (seen self.new ≡ seen self.old) }
        ensures wants { CountsWants (wants self.old) (wants self.new) result }
        ensures answer { IfOk result (λ r. (r.number ≡ length (arc_value book.now).entries) × IsRight right (terms self.old) request (arc_value book.now).entries r.body) };

    /// From now on it answers from no version that is older than the receipt.
    fn learn(&mut self, receipt: &Receipt)
        requires { receipt.now.house ≡ house self.old }
        ensures same { (house self.new ≡ house self.old) × (terms self.new ≡ terms self.old) × (seen self.new ≡ seen self.old) × (wants self.new ≡ wants self.old) }
        ensures told { IsPrefix (told self.old) (told self.new) × IsPrefix receipt.now.entries (told self.new) };

    /// Learns the receipt, looks once more, and gives the number of the version that it sees.
    fn settle(&mut self, alloc: Global, receipt: &Receipt) -> Result<u32, Mem>
        requires house { receipt.now.house ≡ house self.old }
        requires ample { wants self.old ≡ 0 }
        ensures same { (house self.new ≡ house self.old) × (terms self.new ≡ terms self.old) }
        ensures wants { CountsWants (wants self.old) (wants self.new) result }
        ensures told { IsPrefix (told self.old) (told self.new) × IsPrefix receipt.now.entries (told self.new) }
        ensures seen { IsPrefix (seen self.old) (seen self.new) }
        ensures number { IfOk result (λ n. (n ≡ length (seen self.new)) × IsPrefix receipt.now.entries (seen self.new)) };
}
