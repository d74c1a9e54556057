//! Routes one after another in one table of points. A certificate has many that are short, and a
//! list of its own for each would take more memory than its points.
ghost use Rattle.std.specs.Prelude.{◌≡◌, ◌≤◌, ◌<◌, ◌∷◌, ◌-◌, List, take, drop, length, slice_index_or};
ghost use Rattle.certificates.specs.Parts.{parts, AreEnds};

use aig_graph::NoMemory;
use frame_net::Point;
use std::alloc::Global;
use std::marker::Model;

/// Routes, in their order. Each is a list of points, from after a known latch to after a variable
/// that is read from outside.
pub struct Routes {
    points: Vec<Point>,
    /// By route, how many points there are up to its end.
    ends: Vec<usize>,
}

impl Drop for Routes {
    // written out: docs/PROOFS.md, Drops and exits
    fn drop(self) {
        let Routes {
            points: _points,
            ends: _ends,
        } = self;
    }
}

impl Model for Routes {
    ghost use Rattle.std.specs.Prelude.{List, length};
    ghost use Rattle.frame_net.specs.declared.net.Point.{Point};
    ghost use Rattle.certificates.specs.Parts.{parts, AreEnds};

    ghost Value = { List (List Point) };

    ghost view = { λ r. parts 0 r.ends.items r.points.items };

    ghost invariant = { λ r. AreEnds 0 r.ends.items (length r.points.items) };
}

/// Returns the index of a route's first point, which is the end of the route before it.
fn start_of(ends: &[usize], number: usize) -> usize
    requires { number < length ends.now }
    ensures { result ≡ slice_index_or (0 ∷ ends.now) number 0 }
{
    if number == 0 { 0 } else { ends[number - 1] }
}

/// Returns the points from one index up to another.
fn between(points: &[Point], from: usize, to: usize) -> &[Point]
    requires rising { from ≤ to }
    requires within { to ≤ length points.now }
    ensures { result.now ≡ take (to - from) (drop from points.now) }
{
    &points[from..to]
}

/// Returns the points of a route, by the ends of the routes.
fn route_at<'a>(points: &'a [Point], ends: &[usize], number: usize) -> &'a [Point]
    requires ends { AreEnds 0 ends.now (length points.now) }
    requires number { number < length ends.now }
    ensures { (d : List Point) → result.now
        ≡ slice_index_or (parts 0 ends.now points.now) number d }
{
    between(points, start_of(ends, number), ends[number])
}

impl Routes {
    ghost use Rattle.std.specs.Prelude.{◌≡◌, ◌<◌, ◌∷◌, ◌++◌, [], List, length, slice_index_or, IfOk, OnOk};
    ghost use Rattle.frame_net.specs.declared.net.Point.{Point};
    ghost use Rattle.certificates.specs.Routes.{passed, all_passed};

    /// Returns a list of no routes. Takes no memory.
    pub fn none(alloc: Global) -> Routes
        ensures { result ≡ [] }
    {
        Routes {
            points: Vec::new(alloc),
            ends: Vec::new(alloc),
        }
    }

    /// Returns a list of no routes, with room for `routes` routes of one point each.
    pub fn with_room(alloc: Global, routes: usize) -> Result<Routes, NoMemory>
        ensures { IfOk result (λ none. none ≡ []) }
    {
        let ends = Vec::with_capacity(alloc, routes)?;
        let points = Vec::with_capacity(alloc, routes)?;
        Ok(Routes { points, ends })
    }

    /// Returns the number of routes.
    pub fn len(&self) -> usize
        ensures { result ≡ length self.now }
    {
        self.ends.len()
    }

    /// Returns the points of a route, by its number.
    pub fn route(&self, number: usize) -> &[Point]
        requires { number < length self.now }
        ensures { (d : List Point) → result.now ≡ slice_index_or self.now number d }
    {
        route_at(self.points.as_slice(), self.ends.as_slice(), number)
    }

    /// Returns the points of all routes, route by route.
    pub(crate) fn points(&self) -> &[Point]
        ensures { passed result.now ≡ all_passed self.now }
    {
        self.points.as_slice()
    }

    /// Adds a route at the end.
    ///
    /// # Errors
    ///
    /// `NoMemory`; then nothing is added.
    pub fn push(&mut self, route: &[Point]) -> Result<(), NoMemory>
        ensures { OnOk result (self.new ≡ self.old ++ route.now ∷ []) }
    {
        self.ends.reserve(1)?;
        self.points.extend_from_slice(route)?;
        self.ends.push_reserved(self.points.len());
        Ok(())
    }
}
