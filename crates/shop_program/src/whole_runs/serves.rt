//! Serving runs whose clerk and desks are held by a gate: what their desks write, and how many nodes they build.
use crate::whole_runs::cases::{
    CHEAPER, ELSEWHERE, OLD_AND_NEW, ONE_WAY, ROUND_TRIP, UNKNOWN, joined, serve_case,
};
use crate::whole_runs::gates::{Holding, Plan};
use crate::whole_runs::runs::{Call, command_of, served, written};
use fare_io::MemSink;
use fare_law::{List, Mem};
use lowfare::Status;
use std::alloc::Global;
use std::sync::Wait;
use std::thread::Threads;

/// Tells what comes of each run.
pub fn report_serves<R: Threads + Wait + Sync>(
    rt: &R,
    alloc: Global,
    report: &mut Vec<u8>,
) -> Result<(), Mem> {
    report.extend_from_slice(of_old_and_new(rt, alloc)?.as_slice())?;
    report.extend_from_slice(of_nodes(rt, alloc)?.as_slice())?;
    report.extend_from_slice(of_the_made_case(rt, alloc)?.as_slice())?;
    Ok(())
}

/// What is written where a filing comes while the first desk builds, another one is refused, and that desk then searches again.
fn of_old_and_new<R: Threads + Wait + Sync>(rt: &R, alloc: Global) -> Result<Vec<u8>, Mem> {
    let script = joined(alloc, &[OLD_AND_NEW, "1 wait 2\n1 search 1\n"])?;
    let case = serve_case(
        alloc,
        ONE_WAY.book,
        [CHEAPER, UNKNOWN],
        [ONE_WAY.request, ""],
        text_of(script.as_slice()),
    )?;
    let gate = Holding::by(Plan::Overtake);
    let (status, text) = served(rt, alloc, case, &gate)?;
    let line = format!(in alloc;
        "old and new: status {}, {} filings, {} held for too long\n",
        status.number(),
        gate.filings(),
        gate.given_up()
    )?;
    let mut told = Vec::new(alloc);
    told.extend_from_slice(line.as_bytes())?;
    told.extend_from_slice(text.as_slice())?;
    Ok(told)
}

/// These bytes as a text, empty where they are none.
fn text_of(bytes: &[u8]) -> &str {
    str::from_utf8(bytes).unwrap_or("")
}

/// How many nodes the first desk builds for this script, which has two requests, and how many the others; none where it isn't done.
/// Once the first desk has an answer, this is filed, where it is anything.
fn built_for<R: Threads + Wait + Sync>(
    rt: &R,
    alloc: Global,
    script: &str,
    later: &str,
) -> Result<(u64, u64), Mem> {
    let case = serve_case(
        alloc,
        ROUND_TRIP.book,
        [later, ""],
        [ROUND_TRIP.request, ONE_WAY.request],
        script,
    )?;
    let gate = Holding::by(Plan::AnswerFirst);
    let (status, _text) = served(rt, alloc, case, &gate)?;
    if status == Status::Done && gate.given_up() == 0 {
        Ok(gate.built())
    } else {
        Ok((0, 0))
    }
}

/// Scripts, with what is filed meanwhile, for which the first desk builds as many nodes as for one search by the first request, and a
/// second one none. By the one in which nothing is filed the second request isn't taken for the first.
const SCRIPTS: [(&str, &str, &str); 5] = [
    (
        "one search twice",
        "desks 1\n1 search 1\n1 search 1\n",
        ELSEWHERE,
    ),
    (
        "another search first",
        "desks 1\n1 search 2\n1 search 1\n",
        "",
    ),
    (
        "one search, another, and the first again",
        "desks 1\n1 search 1\n1 search 2\n1 search 1\n",
        ELSEWHERE,
    ),
    (
        "the same of another version",
        "desks 1\n1 search 1\n1 wait 1\n1 search 1\n",
        ELSEWHERE,
    ),
    (
        "two desks, each twice",
        "desks 2\n1 search 1\n2 wait 1\n2 search 1\n2 search 1\n1 search 1\n",
        ELSEWHERE,
    ),
];

/// How many nodes are built for one search and for several.
fn of_nodes<R: Threads + Wait + Sync>(rt: &R, alloc: Global) -> Result<Vec<u8>, Mem> {
    let mut told = Vec::new(alloc);
    let (once, _others) = built_for(rt, alloc, "desks 1\n1 search 1\n", ELSEWHERE)?;
    let what = if once > 1 { "several" } else { "too few" };
    let line = format!(in alloc; "one search: {what} nodes\n")?;
    told.extend_from_slice(line.as_bytes())?;
    for (name, script, later) in SCRIPTS {
        let (first, others) = built_for(rt, alloc, script, later)?;
        let what = if first == once && others == 0 {
            "as many"
        } else {
            "others"
        };
        let line = format!(in alloc; "{name}: {what}\n")?;
        told.extend_from_slice(line.as_bytes())?;
    }
    Ok(told)
}

/// The made case of a seed and a size.
fn made<R: Threads + Wait + Sync>(rt: &R, alloc: Global) -> Result<MemSink, Mem> {
    let words = ["make", "--seed", "7", "--size", "15"];
    let command = command_of(alloc, Call::Run, &words)?;
    let (_status, text) = written(rt, alloc, &command, b"")?;
    Ok(text)
}

/// The made case as one of a serving run: a desk searches, learns that a fare of another market was filed, and searches again.
fn served_made(alloc: Global, made: &str) -> Result<Option<List<u8>>, Mem> {
    let Some((book, rest)) = made.split_once("#request\n") else {
        return Ok(None);
    };
    let Some((request, _end)) = rest.split_once("#end\n") else {
        return Ok(None);
    };
    let script = "desks 1\n1 search 1\n1 wait 1\n1 search 1\n";
    let case = serve_case(alloc, book, [ELSEWHERE, ""], [request, ""], script)?;
    Ok(Some(case))
}

/// The replies of a text to the lines 1 and 3 of a script, each without its first line, and what comes before and between, in lines.
#[derive(Clone, Copy)]
struct Replies<'a> {
    history: &'a str,
    heads: [&'a str; 2],
    tickets: [&'a str; 2],
}

fn replies_of(text: &str) -> Option<Replies<'_>> {
    let (history, replies) = text.split_once("reply 1 ")?;
    let (first, second) = replies.split_once("reply 3 ")?;
    let (first_head, first_tickets) = first.split_once("\n")?;
    let (second_head, second_tickets) = second.split_once("\n")?;
    Some(Replies {
        history,
        heads: [first_head, second_head],
        tickets: [first_tickets, second_tickets],
    })
}

/// Whether a desk gives the same tickets of the made case twice.
fn of_the_made_case<R: Threads + Wait + Sync>(rt: &R, alloc: Global) -> Result<Vec<u8>, Mem> {
    let mut told = Vec::new(alloc);
    let made = made(rt, alloc)?;
    let Some(case) = served_made(alloc, text_of(made.as_slice()))? else {
        told.extend_from_slice(b"no made case\n")?;
        return Ok(told);
    };
    let gate = Holding::by(Plan::AnswerFirst);
    let (_status, text) = served(rt, alloc, case, &gate)?;
    let Some(replies) = replies_of(text_of(text.as_slice())) else {
        told.extend_from_slice(b"no two replies\n")?;
        return Ok(told);
    };
    let line = made_line(alloc, replies)?;
    told.extend_from_slice(line.as_bytes())?;
    Ok(told)
}

/// What is told of the two replies.
fn made_line(alloc: Global, replies: Replies<'_>) -> Result<String, Mem> {
    let Replies {
        history,
        heads: [first, second],
        tickets: [early, late],
    } = replies;
    let what = if early == late { "the same" } else { "others" };
    let count = early.split_once("\n").map_or("", |(count, _)| count);
    Ok(format!(in alloc; "made case\n{history}{first}\n{second}\n{count}, then {what}\n")?)
}
