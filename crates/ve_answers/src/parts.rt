// The items, the references and the selection.
ghost use Rattle.std.specs.Prelude.{◌≡◌, length, unwrap_or, All, IfOk};
ghost use Rattle.model_items.specs.Plain.{CitesWell};
ghost use Rattle.ve_answers.specs.Replies.{caret_reply, items_reply, refs_reply};
ghost use Rattle.ve_offsets.specs.Docs.{page_items};
ghost use Rattle.ve_json.specs.Answers.{reply_of, AnswerCites};

use model_edit::Selection;
use model_world::Refusal;
use std::alloc::Global;
use ve_base::Memory;
use ve_internal::table;
use ve_json::Answer;
use ve_offsets::Doc;

/// To `data`: the items from one position up to another, borrowed. Where none is named they go up
/// to the list's end. It is refused where the range is none of the list.
pub fn items<'a>(doc: Doc<'a>, from: usize, to: Option<usize>) -> Answer<'a>
    requires cites { All (CitesWell doc.store.now) doc.list.now.items }
    ensures reply { reply_of result
        ≡ items_reply (page_items doc.entry) from (unwrap_or to (length (page_items doc.entry))) }
    ensures cites { AnswerCites result }
{
    let len = doc.list.len();
    let to = to.unwrap_or(len);
    if to < from || len < to {
        return Answer::No(Refusal::BadRange { from, to });
    }
    Answer::Items {
        list: doc.list,
        store: doc.store,
        from,
        to,
    }
}

/// To `refs`: the table of references.
pub fn refs<'a>(alloc: Global, doc: Doc<'a>) -> Result<Answer<'a>, Memory>
    requires cites { All (CitesWell doc.store.now) doc.list.now.items }
    ensures reply { IfOk result (λ answer. reply_of answer ≡ refs_reply (page_items doc.entry)) }
    ensures cites { IfOk result AnswerCites }
{
    Ok(Answer::Refs(table(alloc, doc.list, doc.store)?))
}

/// To `caret`: where the selection stands.
pub fn caret<'a>(selection: Selection) -> Answer<'a>
    ensures reply { reply_of result ≡ caret_reply selection }
    ensures cites { AnswerCites result }
{
    Answer::Caret {
        anchor: selection.anchor,
        focus: selection.focus,
    }
}
