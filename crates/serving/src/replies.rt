//! The replies at the end of a serving run's text.
ghost use Rattle.std.specs.Prelude.{◌≡◌, ◌++◌, length, map, OnOk};
ghost use Rattle.serving.specs.Lines.{reply_line as reply_words};
ghost use Rattle.serving.specs.Replaying.{replies_text};

use crate::headings::push_line;
use crate::lines::reply_line;
use crate::searches::SearchLine;
use fare_law::{List, Mem};
use serve_desks::Reply;
use std::alloc::Global;

/// Adds the replies to these searches, one each, with these texts.
pub(crate) fn push_replies(
    alloc: Global,
    text: &mut Vec<u8>,
    searches: &[SearchLine],
    replies: &[Reply],
    texts: &[List<u8>],
) -> Result<(), Mem>
    requires replies { length replies.now ≡ length searches.now }
    requires texts { length texts.now ≡ length replies.now }
    ensures { OnOk result (text.new.items ≡ text.old.items ++ replies_text searches.now replies.now texts.now) }
{
    for (at, search) in searches.iter().enumerate() {
        push_reply(alloc, text, *search, &replies[at], texts[at].as_slice())?;
    }
    Ok(())
}

/// Adds a reply: its line, then the text of what came of the search.
fn push_reply(
    alloc: Global,
    text: &mut Vec<u8>,
    search: SearchLine,
    reply: &Reply,
    body: &[u8],
) -> Result<(), Mem>
    ensures { OnOk result (text.new.items ≡ text.old.items ++ (reply_words search.line search.desk reply.now.number ++ body.now)) }
{
    push_heading(alloc, text, search, reply.number)?;
    text.extend_from_slice(body)?;
    Ok(())
}

fn push_heading(
    alloc: Global,
    text: &mut Vec<u8>,
    search: SearchLine,
    version: u32,
) -> Result<(), Mem>
    ensures { OnOk result (text.new.items ≡ text.old.items ++ reply_words search.line search.desk version) }
{
    let line = reply_line(alloc, search.line, search.desk, version)?;
    push_line(text, &line)
}
