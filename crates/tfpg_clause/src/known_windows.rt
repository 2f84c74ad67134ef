//! Windows of edges, known from earlier spans. So each window is found once, however many spans it has.

ghost use Rattle.std.specs.Prelude.{◌≡◌, ◌<◌, ◌≤◌, length, All, IfSome, slice_index_or, None};
ghost use Rattle.tfpg_clause.specs.inside.KnownWindows.{window_over, IsWindowOver, AreKnown, AreWindows};
ghost use Rattle.tfpg_clause.specs.inside.Ranges.{IsSmallWindow};

use crate::may::find_span;
use crate::must::find_window;
use crate::site::Site;
use tfpg_log::Window;

/// The window of the edge round the span of the site, where there is one. It is not looked for where
/// the span lies in the window that is known. Else the cost is that of [`Log::window_of`].
pub(crate) fn window_over(site: &Site<'_>, edge: u32, known: Option<Window>) -> Option<Window>
    requires edge { edge < length site.now.graph.now.edges }
    requires known { IfSome known (IsWindowOver site.now.graph.now site.now.log.now site.now.horizon edge) }
    ensures value { result
        ≡ window_over site.now.graph.now site.now.log.now site.now.span site.now.horizon edge }
    ensures small { IfSome result IsSmallWindow }
{
    site.log.is_always_ordered();
    let instant = find_span(site)?.lo;
    match known {
        Some(window) if window.lo <= instant && instant <= window.hi => Some(window),
        _ => find_window(site, edge),
    }
}

/// Takes the windows of these edges round the span of the site, in place of those that are known.
pub(crate) fn take_windows(site: &Site<'_>, edges: &[u32], known: &mut [Option<Window>])
    requires edges { All (λ edge. edge < length site.now.graph.now.edges) edges.now }
    requires room { length edges.now ≤ length known.old }
    requires known { AreKnown site.now.graph.now site.now.log.now site.now.horizon edges.now known.old }
    ensures { AreWindows site.now.graph.now site.now.log.now site.now.span site.now.horizon edges.now
        known.new }
{
    for index in 0..edges.len() {
        known[index] = window_over(site, edges[index], known[index]);
    }
}

/// What is known at the index.
pub(crate) fn known_at(known: &[Option<Window>], index: usize) -> Option<Window>
    ensures { result ≡ slice_index_or known.now index None }
{
    match known.get(index) {
        Some(window) => *window,
        None => None,
    }
}
