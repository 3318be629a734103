// The boundaries on either side of a position in a text.
ghost use Rattle.std.specs.Prelude.{◌≡◌, ◌≤◌, true, nat_lt, if◌then◌else◌, Some, None, length};
ghost use Rattle.std.specs.Option.{ForSome};
ghost use Rattle.std.specs.Str.{chars};
ghost use Rattle.unicode_segmentation.specs.Grapheme.{graphemes};
ghost use Rattle.unicode_segmentation.specs.Word.{word_bounds};
ghost use Rattle.model_edit.specs.Next.{cutting, first_above, last_below};
ghost use Rattle.ve_select.specs.Passing.{cuts};

use model_edit::By;
use unicode_segmentation::UnicodeSegmentation;

/// The boundaries next to a position, counted in characters.
#[derive(Drop)]
pub struct Neighbours {
    pub below: Option<usize>,
    pub above: Option<usize>,
}

fn char_count(text: &str) -> usize
    ensures { result ≡ length (chars text.now) }
{
    text.chars().count()
}

/// A boundary below a bound, if this one is, or else the one found before.
fn lower(end: usize, bound: usize, found: Option<usize>) -> Option<usize>
    ensures { result ≡ (if nat_lt end bound then Some end else found) }
{
    if end < bound { Some(end) } else { found }
}

fn clusters_beside(text: &str, bound: usize) -> Neighbours
    ensures below { result.below ≡ last_below bound (cuts (graphemes true text.now)) }
    ensures above { result.above ≡ first_above bound (cuts (graphemes true text.now)) }
    ensures within { ForSome result.above (λ n. n ≤ length (chars text.now)) }
{
    let mut below = lower(0, bound, None);
    let mut end = 0;
    for cluster in text.graphemes(true) {
        end += char_count(cluster);
        if end > bound {
            let above = Some(end);
            return Neighbours { below, above };
        }
        below = lower(end, bound, below);
    }
    Neighbours { below, above: None }
}

fn words_beside(text: &str, bound: usize) -> Neighbours
    ensures below { result.below ≡ last_below bound (cuts (word_bounds text.now)) }
    ensures above { result.above ≡ first_above bound (cuts (word_bounds text.now)) }
    ensures within { ForSome result.above (λ n. n ≤ length (chars text.now)) }
{
    let mut below = lower(0, bound, None);
    let mut end = 0;
    for word in text.split_word_bounds() {
        end += char_count(word);
        if end > bound {
            let above = Some(end);
            return Neighbours { below, above };
        }
        below = lower(end, bound, below);
    }
    Neighbours { below, above: None }
}

/// The boundaries next to a position in a text. Nothing past the one above is cut.
pub fn boundaries_beside(by: By, text: &str, bound: usize) -> Neighbours
    ensures below { result.below ≡ last_below bound (cuts (cutting by text.now)) }
    ensures above { result.above ≡ first_above bound (cuts (cutting by text.now)) }
    ensures within { ForSome result.above (λ n. n ≤ length (chars text.now)) }
{
    match by {
        By::Cluster => clusters_beside(text, bound),
        By::Word => words_beside(text, bound),
    }
}
