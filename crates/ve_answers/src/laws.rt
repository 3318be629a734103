// That the replies are the model's. The function does nothing, and its contract is the law.
ghost use Rattle.ve_answers.specs.Asked.{CaretIsAsked, GridIsAsked, HtmlIsAsked, ItemsAreAsked, NearIsAsked, NodeIsAsked, RefsAreAsked, TreeIsAsked};

/// The reply to each request is what the model answers: a refusal, or the reply with the session as
/// it is.
pub fn replies_are_as_asked()
    ensures html { HtmlIsAsked }
    ensures items { ItemsAreAsked }
    ensures tree { TreeIsAsked }
    ensures node { NodeIsAsked }
    ensures near { NearIsAsked }
    ensures refs { RefsAreAsked }
    ensures caret { CaretIsAsked }
    ensures grid { GridIsAsked }
{}
