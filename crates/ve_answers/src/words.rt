// The tree in words, read off the items in one pass.
ghost use Rattle.std.specs.Prelude.{◌≡◌, ◌++◌, ◌∷◌, ◌≤◌, ◌<◌, ◌+◌, ◌^◌, [], IfOk, OnOk, length};
ghost use Rattle.ve_answers.specs.Replies.{tree_reply};
ghost use Rattle.ve_answers.specs.Words.{bracket_word, run_words, words_after, GoesOn};
ghost use Rattle.ve_offsets.specs.Docs.{page_items, IsDoc};
ghost use Rattle.ve_json.specs.Answers.{reply_of, AnswerCites};

use model_items::Item;
use model_world::{TreeWord, TreeWords};
use std::alloc::Global;
use ve_base::Memory;
use ve_items::Linear;
use ve_json::Answer;
use ve_kinds::Kind;
use ve_offsets::Doc;

/// Appends a run of so many characters, where there are some.
fn push_run(count: usize, words: &mut TreeWords) -> Result<(), Memory>
    ensures { OnOk result (words.new ≡ words.old ++ run_words count) }
{
    if count == 0 {
        return Ok(());
    }
    words.push(TreeWord::Run(count))
}

/// The word of a bracket.
fn bracket_word(item: Item) -> Option<TreeWord>
    ensures { result ≡ bracket_word item }
{
    match item {
        Item::Char { .. } => None,
        Item::Opening { kind, .. } => Some(TreeWord::Begin(kind)),
        Item::Closing { .. } => Some(TreeWord::End),
    }
}

/// Appends the words that an item ends, where so many characters stand before it, and gives how
/// many stand after it.
fn push_item(item: Item, before: usize, words: &mut TreeWords) -> Result<usize, Memory>
    requires { before + 1 < 2 ^ 64 }
    ensures words { IfOk result (λ after. GoesOn words.old words.new before after (item ∷ [])) }
    ensures most { IfOk result (λ after. after ≤ before + 1) }
{
    let Some(word) = bracket_word(item) else {
        return Ok(before + 1);
    };
    push_run(before, words)?;
    words.push(word)?;
    Ok(0)
}

/// The same of items in a row.
fn push_items(items: &[Item], before: usize, words: &mut TreeWords) -> Result<usize, Memory>
    requires { before + length items.now < 2 ^ 64 }
    ensures words { IfOk result (λ after. GoesOn words.old words.new before after items.now) }
    ensures most { IfOk result (λ after. after ≤ before + length items.now) }
{
    let mut count = before;
    for k in 0..items.len() {
        count = push_item(items[k], count, words)?;
    }
    Ok(count)
}

/// Appends the words of a list, piece after piece.
fn push_list(list: &Linear, words: &mut TreeWords) -> Result<(), Memory>
    ensures { OnOk result (words.new ≡ words.old ++ words_after 0 list.now.items) }
{
    let len = list.len();
    let mut at = 0;
    let mut count = 0;
    while at < len {
        let piece = list.piece(at, len);
        count = push_items(piece, count, words)?;
        at += piece.len();
    }
    push_run(count, words)
}

/// To `tree`: the root and all in it, in words. The items are read once.
pub fn tree<'a>(alloc: Global, doc: Doc<'a>) -> Result<Answer<'a>, Memory>
    requires doc { IsDoc doc }
    ensures reply { IfOk result (λ answer. reply_of answer ≡ tree_reply (page_items doc.entry)) }
    ensures cites { IfOk result AnswerCites }
{
    let mut words = TreeWords::new(alloc);
    words.push(TreeWord::Begin(Kind::Root))?;
    push_list(doc.list, &mut words)?;
    words.push(TreeWord::End)?;
    Ok(Answer::Tree(words))
}
