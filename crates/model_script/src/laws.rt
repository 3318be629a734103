// The definitions in the subject's own words: lines, replies, and the states that lines lead to.
ghost use Rattle.model_script.specs.Laws.{ScriptIsItsLines, EachLineIsAnswered, RepliesFollowOn, StateFollowsOn, CostFollowsOn, OutputFollowsOn};

/// Joining a script's lines, each with a newline, gives the script back up to its last newline. No
/// line holds a newline. The rest after the last newline is a line exactly where it isn't empty. No
/// other list of lines does this.
pub fn script_is_its_lines()
    ensures { ScriptIsItsLines }
{}

/// Each line has one reply.
#[tactic(auto, using(crate::proofs::Turns::each_line_is_answered))]
pub fn each_line_is_answered<W, R>()
    ensures { EachLineIsAnswered W R }
{}

/// Lines are answered from the state that the lines before them lead to. The output for whole lines
/// and a rest is the output for the whole lines, and then that for the rest.
#[tactic(auto, using(crate::proofs::Turns::replies_follow_on, crate::proofs::Turns::state_follows_on, crate::proofs::Turns::cost_follows_on, crate::proofs::Turns::output_follows_on))]
pub fn answers_follow_on<W, R>()
    ensures replies { RepliesFollowOn W R }
    ensures state { StateFollowsOn W R }
    ensures cost { CostFollowsOn W R }
    ensures output { OutputFollowsOn W R }
{}
