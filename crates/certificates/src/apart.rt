//! Whether routes are apart from one another.
ghost use Rattle.std.specs.Prelude.{◌≡◌, ◌==◌, ◌+◌, ◌<◌, ◌≤◌, ◌↔◌, false, IsTrue, All, ℕ, length};
ghost use Rattle.std.specs.List.{IsDistinct};
ghost use Rattle.aig_graph.specs.Marking.{mark_at};
ghost use Rattle.certificates.specs.Routes.{passed};

use aig_graph::{mark_at, mark_variable};
use frame_net::Point;

/// Returns true if no two of the points are after one variable. The table of marks covers these
/// variables, and none of them is set.
pub(crate) fn are_distinct(marks: &mut [bool], first: u32, points: &[Point]) -> bool
    requires none { (v : ℕ) → mark_at first marks.old v ≡ false }
    requires covered { All (λ v. (first ≤ v) × (v < first + length marks.old)) (passed points.now) }
    ensures { IsTrue result ↔ IsDistinct (λ v w. v == w) (passed points.now) }
{
    for point in points {
        if point.behind {
            if mark_at(marks, first, point.var) {
                return false;
            }
            mark_variable(marks, first, point.var);
        }
    }
    true
}
