//! How many hypotheses there are.

ghost use Rattle.std.specs.Prelude.{◌≡◌, ◌+◌, ◌<◌, ◌≤◌, ◌^◌, ℕ, length, get_or, All};
ghost use Rattle.tfpg_base.specs.declared.limits.TheConstants.{MAX_DOUBT, MAX_NODE_NUMBERS};
ghost use Rattle.tfpg_graph.specs.declared.limits.TheConstants.{MAX_FAILURES};
ghost use Rattle.tfpg_hyp.specs.inside.Choices.{counted_below, with_one_more};

use tfpg_base::MAX_DOUBT;
use tfpg_graph::MAX_FAILURES;

/// The greatest size of a hypothesis: all failure modes, and as many doubts as there may be.
const GREATEST: usize = MAX_FAILURES as usize + MAX_DOUBT as usize;

/// How many hypotheses of at most `k` members there are, where there are so many failure modes and monitors, and at most
/// `doubt` of the members are monitors. As they are listed: each set has the next item, or has it not. Takes a few thousand
/// additions.
pub(crate) fn count_hypotheses(failures: u32, monitors: u32, k: u32, doubt: u32) -> u128
    requires few_failures { failures ≤ MAX_FAILURES }
    requires few_monitors { monitors ≤ MAX_NODE_NUMBERS }
    requires few_doubts { doubt ≤ MAX_DOUBT }
    ensures { result ≡ counted_below monitors doubt failures (k + 1) }
{
    let mut of_size = [0; GREATEST + 1];
    of_size[0] = 1;
    for _monitor in 0..monitors {
        add_item(&mut of_size, doubt as usize);
    }
    for _failure in 0..failures {
        add_item(&mut of_size, GREATEST);
    }
    let mut total = 0;
    let sizes = k.min(failures + doubt) + 1;
    for size in 0..sizes {
        total += of_size[size as usize];
    }
    total
}

/// Counts the sets of each size up to the greatest with one item more.
fn add_item(of_size: &mut [u128], greatest: usize)
    requires within { greatest < length of_size.old }
    requires small { All (λ count. count < 2 ^ 127) of_size.old }
    ensures counted { (size : ℕ) → size ≤ greatest →
        get_or of_size.new size 0 ≡ with_one_more (λ other. get_or of_size.old other 0) size }
    ensures larger { (size : ℕ) → greatest < size → get_or of_size.new size 0 ≡ get_or of_size.old size 0 }
{
    let mut size = greatest;
    while size > 0 {
        of_size[size] += of_size[size - 1];
        size -= 1;
    }
}
