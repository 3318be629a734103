// The page, written out.
ghost use Rattle.std.specs.Prelude.{◌≡◌, true, All, IfOk};
ghost use Rattle.model_items.specs.Plain.{CitesWell};
ghost use Rattle.model_page.specs.Editable.{all_refer};
ghost use Rattle.ve_answers.specs.Replies.{html_reply};
ghost use Rattle.ve_origin.specs.Known.{AreKnown};
ghost use Rattle.ve_write.specs.Originals.{opened_over, IsFirst};
ghost use Rattle.ve_offsets.specs.Docs.{page_items, IsDoc};
ghost use Rattle.ve_json.specs.Answers.{reply_of, AnswerCites};

use std::alloc::Global;
use ve_base::{Bytes, Memory, Text};
use ve_json::Answer;
use ve_offsets::Doc;
use ve_origin::{Known, Origins};
use ve_write::write_knowing;

/// To `html`: the page that the list gives, after the one that was first read. What is written is
/// UTF-8.
///
/// The references of the list have to be editable, and the page that was first read has to stand
/// over the values of this one. So each of its rows is the range of a node, and each origin in its
/// list is the number of a row. Items that are known to be as they were first read aren't compared.
pub fn html<'a, 'b>(
    alloc: Global,
    origins: &'a Origins<'a>,
    doc: Doc<'b>,
    known: Known,
) -> Result<Answer<'b>, Memory>
    requires doc { IsDoc doc }
    requires cites { All (CitesWell doc.store.now) doc.list.now.items }
    requires refers { all_refer (page_items doc) ≡ true }
    requires first { IsFirst doc.store.now origins.now }
    requires known { AreKnown doc.list.now.items origins.now.items known }
    ensures reply { IfOk result (λ answer.
        reply_of answer
        ≡ html_reply (opened_over doc.entry.store.now origins.entry.now)
        (page_items doc.entry)) }
    ensures cites { IfOk result AnswerCites }
{
    let mut written = Bytes::new(alloc);
    write_knowing(alloc, doc.list, doc.store, origins, known, &mut written)?;
    let Ok(page) = std::str::from_utf8(written.as_slice()) else {
        unreachable!()
    };
    Ok(Answer::Page(Text::from_str(alloc, page)?))
}
