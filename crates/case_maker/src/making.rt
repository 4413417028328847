//! The made case.
ghost use Rattle.std.specs.Int.{IsInRange};
ghost use Rattle.std.specs.Prelude.{◌≡◌, IfOk};
ghost use Rattle.case_maker.specs.MadeCase.{made_case};

use crate::filing::push_filing;
use crate::page::Page;
use crate::tables::{push_flights, push_places, push_seats};
use fare_law::{List, Mem};
use std::alloc::Global;

const REQUEST: &[u8] =
    b"#request\n{\"best\":10,\"party\":2,\"sale\":\"2031-02-01\",\"slices\":[{\"days\":1,\"first\":\"2031-03-03\",\"from\":\"AAA\",\"to\":\"BBB\"},{\"days\":1,\"first\":\"2031-03-10\",\"from\":\"BBB\",\"to\":\"AAA\"}]}\n#end\n";

/// The made case of a seed and a size from 1 to 100, which is the count of its hubs. It is the bytes of a search
/// case, and the same ones at each call.
pub fn make(alloc: Global, seed: u32, size: u32) -> Result<List<u8>, Mem>
    requires { IsInRange 1 100 size }
    ensures { IfOk result (λ text. text ≡ made_case seed size) }
{
    let mut page = Page::new(alloc, seed);
    push_places(&mut page, size)?;
    push_flights(&mut page, size)?;
    push_seats(&mut page, size)?;
    push_filing(&mut page, size)?;
    page.say(REQUEST)?;
    Ok(page.into_text())
}
