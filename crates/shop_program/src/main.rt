//! A shop in Rattle: a command over bytes in memory, a search of a book, and two desks on threads beside a clerk that
//! files. It reads a search case from standard input; docs/EMBEDDING.md shows it beside the programs in other languages.
#![tactic(auto)]

mod whole_runs; // for the gate

ghost use Rattle.std.specs.Prelude.{◌≤◌, length};

use fare_io::{StdSource, read_all};
use fare_law::Mem;
use shop_book::{Outcome, file, open_book, run_over, search_text};
use std::alloc::Global;
use std::io::{self, Write};
use std::process::ExitCode;
use std::thread::{Threads, join};

const REQUEST: &[u8] =
    b"{\"sale\":\"2031-02-01\",\"party\":1,\"slices\":[{\"from\":\"LON\",\"to\":\"NYC\",\"first\":\"2031-03-03\",\"days\":1}]}";

const FILING: &[u8] =
    b"{\"actions\":[{\"put_fare\":{\"carrier\":\"QX\",\"from\":\"LON\",\"to\":\"NYC\",\"basis\":\"Y1\",\"class\":\"Y\",\"kind\":\"O\",\"amount\":15000,\"rule\":0}}]}";

/// The budget that the program has by default.
const BUDGET: u32 = 100_000;

fn main(rt: HostRuntime) -> ExitCode {
    let alloc = rt.alloc();
    whole_runs::tell_if_asked(&rt, alloc, &mut rt.stdout()); // for the gate
    let Ok(input) = read_all(alloc, &mut StdSource::new(rt.stdin()), 67_108_864) else {
        return ExitCode::from(3);
    };
    match shop(&rt, alloc, input.as_slice(), &mut rt.stdout()) {
        Ok(()) => ExitCode::from(0),
        Err(_) => ExitCode::from(1),
    }
}

/// Runs the shop over the bytes of a case.
fn shop<R: Threads + Sync, W: Write>(
    rt: &R,
    alloc: Global,
    case: &[u8],
    out: &mut W,
) -> io::Result<()>
    requires { length case.now ≤ 67108864 }
{
    let words = [String::from_str(alloc, "search")?];
    print(out, run_over(alloc, &words, case))?;
    let Ok(book) = open_book(alloc, case) else {
        return out.write_all(b"no case\n");
    };
    print(out, search_text(alloc, &book, REQUEST, None, BUDGET))?;
    let (replies, next) = join(
        rt,
        || {
            join(
                rt,
                || search_text(alloc, &book, REQUEST, None, BUDGET),
                || search_text(alloc, &book, REQUEST, None, BUDGET),
            )
        },
        || file(alloc, &book, FILING),
    );
    print(out, replies.0)?;
    print(out, replies.1)?;
    match next {
        Ok(next) => print(out, search_text(alloc, &next, REQUEST, None, BUDGET)),
        Err(_) => out.write_all(b"not filed\n"),
    }
}

/// Prints what a book replied.
fn print<W: Write>(out: &mut W, reply: Result<Outcome, Mem>) -> io::Result<()> {
    match reply {
        Ok(reply) => out.write_all(reply.text.as_slice()),
        Err(Mem) => out.write_all(b"out of memory\n"),
    }
}
