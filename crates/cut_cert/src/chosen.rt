//! The chosen least set of a circuit and its routes, from a maximum preflow of the circuit's
//! network.
//!
//! The greatest set is the far side of the preflow. The smallest one is the near side of the routes
//! that its units take.
ghost use Rattle.std.specs.Prelude.{IfOk};
ghost use Rattle.aig_graph.specs.Chosen.{IsChosen};
ghost use Rattle.pulse.specs.Conditions.{IsMaxPreflow};
ghost use Rattle.cut_cert.specs.Shown.{AreLeastRoutes, AreLeastRoutesOf, IsChosenOf};

use crate::gathering::routes;
use crate::greatest::greatest_cut;
use crate::nearest::near_cut;
use crate::preflow::{maximum_preflow, network};
use aig_graph::{Choice, Circuit, ClosedSet, Keep, NoMemory};
use certificates::Routes;
use frame_net::Net;
use pulse::{Crew, MaxPreflow, PhaseGate};
use std::alloc::Global;
use std::thread::Threads;

/// Returns the chosen least set of the circuit with network `net`, and the routes of a maximum
/// preflow.
fn set_and_routes_of(
    alloc: Global,
    net: &Net,
    preflow: &MaxPreflow,
    choice: Choice,
) -> Result<(ClosedSet, Routes), NoMemory>
    requires { IsMaxPreflow net.now preflow.now }
    ensures set { IfOk result (λ found. IsChosenOf choice net.now found.0) }
    ensures routes { IfOk result (λ found. AreLeastRoutesOf net.now found.1) }
{
    let routes = routes(alloc, net, preflow)?;
    let set = match choice {
        Choice::Greatest => greatest_cut(alloc, net, preflow)?,
        Choice::Smallest => near_cut(alloc, net, &routes)?,
    };
    Ok((set, routes))
}

/// Returns the chosen least set of the circuit with network `net`. Routes are looked for only if
/// the smallest set is chosen.
fn set_of(
    alloc: Global,
    net: &Net,
    preflow: &MaxPreflow,
    choice: Choice,
) -> Result<ClosedSet, NoMemory>
    requires { IsMaxPreflow net.now preflow.now }
    ensures { IfOk result (IsChosenOf choice net.now) }
{
    match choice {
        Choice::Greatest => greatest_cut(alloc, net, preflow),
        Choice::Smallest => {
            let routes = routes(alloc, net, preflow)?;
            near_cut(alloc, net, &routes)
        }
    }
}

/// Finds the chosen least set of a circuit whose held latches stay, by a maximum flow of the
/// circuit's network.
///
/// The network, the flow and, for the smallest set, its routes are dropped.
///
/// # Errors
///
/// `NoMemory` if a table, the list of gates or a route is refused.
pub fn chosen_of_network<G: PhaseGate>(
    rt: &(impl Threads + Sync),
    alloc: Global,
    circuit: &Circuit,
    keep: &Keep,
    choice: Choice,
    crew: &Crew<G>,
) -> Result<ClosedSet, NoMemory>
    ensures { IfOk result (IsChosen choice circuit.now keep.now) }
{
    let net = network(alloc, circuit, keep)?;
    let preflow = maximum_preflow(rt, alloc, &net, crew)?;
    set_of(alloc, &net, &preflow, choice)
}

/// Finds what [`chosen_of_network`] finds, and routes that show it: the number of them is that of
/// the variables of its border.
///
/// # Errors
///
/// `NoMemory` if a table, the list of gates or a route is refused.
pub fn shown_by_network<G: PhaseGate>(
    rt: &(impl Threads + Sync),
    alloc: Global,
    circuit: &Circuit,
    keep: &Keep,
    choice: Choice,
    crew: &Crew<G>,
) -> Result<(ClosedSet, Routes), NoMemory>
    ensures set { IfOk result (λ found. IsChosen choice circuit.now keep.now found.0) }
    ensures routes { IfOk result (λ found. AreLeastRoutes circuit.now keep.now found.1) }
{
    let net = network(alloc, circuit, keep)?;
    let preflow = maximum_preflow(rt, alloc, &net, crew)?;
    set_and_routes_of(alloc, &net, &preflow, choice)
}
