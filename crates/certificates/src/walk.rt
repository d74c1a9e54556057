//! Routes of a circuit. A route begins after a known latch. It goes up through passable gates and
//! back down to their fan-ins, and ends after a variable that something outside reads. On each
//! route lies a border variable of each closed set (weak duality; Menger, 1927). So the number of
//! routes that are apart from one another is a lower bound on every border.
ghost use Rattle.std.specs.Prelude.{◌≡◌, ◌&&◌, ℕ, List, true};
ghost use Rattle.aig_graph.specs.Marking.{mark_at};
ghost use Rattle.aig_graph.specs.Tables.{table};
ghost use Rattle.aig_graph.specs.Graph.{Graph, first_latch, latches_and_gates, gate_at};
ghost use Rattle.frame_net.specs.Passable.{IsPassSet, is_passable};
ghost use Rattle.frame_net.specs.Capacity.{gate_reads, is_observed};
ghost use Rattle.certificates.specs.Routes.{begins_at, passes, enters, returns_to, may_step, goes_on, is_route, is_on};

use aig_graph::{Aig, Circuit, Keep, mark_at};
use frame_net::{PassSet, Point};

/// Returns true if the gate at a variable reads another.
fn gate_reads(aig: &Aig, gate: u32, var: u32) -> bool
    ensures { result ≡ gate_reads var (gate_at aig.now gate) }
{
    match aig.gate(gate) {
        Some(gate) => gate.rhs0.var() == var || gate.rhs1.var() == var,
        None => false,
    }
}

/// Returns true if a route may begin at the point.
fn begins_at(aig: &Aig, point: Point) -> bool
    ensures { result ≡ begins_at aig.now point }
{
    point.behind && aig.is_known_latch(point.var)
}

fn is_passable(pass: &PassSet, var: u32) -> bool
    ensures { (g : Graph) (held : List ℕ) → IsPassSet g held pass.now
        → result ≡ is_passable g held var }
{
    pass.has(var)
}

fn passes(pass: &PassSet, from: Point, to: Point) -> bool
    ensures { (g : Graph) (held : List ℕ) → IsPassSet g held pass.now
        → result ≡ passes g held from to }
{
    !from.behind && to.behind && from.var == to.var && is_passable(pass, from.var)
}

fn enters(aig: &Aig, pass: &PassSet, from: Point, to: Point) -> bool
    ensures { (held : List ℕ) → IsPassSet aig.now held pass.now
        → result ≡ enters aig.now held from to }
{
    from.behind && !to.behind && is_passable(pass, to.var) && gate_reads(aig, to.var, from.var)
}

fn returns_to(aig: &Aig, pass: &PassSet, from: Point, to: Point) -> bool
    ensures { (held : List ℕ) → IsPassSet aig.now held pass.now
        → result ≡ returns_to aig.now held from to }
{
    !from.behind
        && !to.behind
        && is_passable(pass, from.var)
        && aig.gate(to.var).is_some()
        && gate_reads(aig, from.var, to.var)
}

/// Returns true if a route may step from one point to the next.
#[tactic(auto, unfolding(crate::specs::Routes::may_step))]
fn may_step(aig: &Aig, pass: &PassSet, from: Point, to: Point) -> bool
    ensures { (held : List ℕ) → IsPassSet aig.now held pass.now
        → result ≡ may_step aig.now held from to }
{
    passes(pass, from, to) || enters(aig, pass, from, to) || returns_to(aig, pass, from, to)
}

/// Returns true if a route may end at the point: after a variable that is held, or read from
/// outside the passable gates.
fn ends_at(leaving: &[bool], first: u32, point: Point) -> bool
    ensures { result ≡ (point.behind && mark_at first leaving.now point.var) }
{
    point.behind && mark_at(leaving, first, point.var)
}

/// Returns true if the rest of a route may follow its first point.
fn goes_on(
    circuit: &Circuit,
    keep: &Keep,
    pass: &PassSet,
    leaving: &[bool],
    first: Point,
    rest: &[Point],
) -> bool
    requires first { is_on circuit.now.aig first.var ≡ true }
    requires pass { IsPassSet circuit.now.aig keep.now pass.now }
    requires leaving { leaving.now ≡ table (first_latch circuit.now.aig)
        (latches_and_gates circuit.now.aig) (is_observed circuit.now.aig circuit.now.props
        keep.now) }
    ensures { result ≡ goes_on circuit.now keep.now first rest.now }
{
    let aig = circuit.aig();
    let mut at = first;
    for point in rest {
        if !may_step(aig, pass, at, *point) {
            return false;
        }
        at = *point;
    }
    ends_at(leaving, aig.first_latch(), at)
}

/// Returns true if the points are a route of the circuit.
pub(crate) fn is_route(
    circuit: &Circuit,
    keep: &Keep,
    pass: &PassSet,
    leaving: &[bool],
    route: &[Point],
) -> bool
    requires pass { IsPassSet circuit.now.aig keep.now pass.now }
    requires leaving { leaving.now ≡ table (first_latch circuit.now.aig)
        (latches_and_gates circuit.now.aig) (is_observed circuit.now.aig circuit.now.props
        keep.now) }
    ensures { result ≡ is_route circuit.now keep.now route.now }
{
    match route.split_first() {
        Some((first, rest)) => {
            begins_at(circuit.aig(), *first) && goes_on(circuit, keep, pass, leaving, *first, rest)
        }
        None => false,
    }
}
