//! All routes of a maximum flow.
ghost use Rattle.std.specs.Prelude.{IfOk};
ghost use Rattle.pulse.specs.Conditions.{IsMaxPreflow};
ghost use Rattle.cut_cert.specs.Shown.{AreLeastRoutesOf};

use crate::carried::{carried_by_arcs, first_places, incoming};
use crate::trail::no_marks;
use crate::walk::next_route;
use aig_graph::NoMemory;
use certificates::Routes;
use frame_net::Net;
use pulse::MaxPreflow;
use std::alloc::Global;

/// Gathers the routes of any maximum preflow of the circuit's network. The number of them is that
/// of the variables of a least set's border.
///
/// No two routes pass after one variable, and none has a point twice. Linear in the network and in
/// the arcs that are walked.
///
/// # Errors
///
/// `NoMemory` if a table or a route is refused.
pub fn routes(alloc: Global, net: &Net, preflow: &MaxPreflow) -> Result<Routes, NoMemory>
    requires { IsMaxPreflow net.now preflow.now }
    ensures { IfOk result (AreLeastRoutesOf net.now) }
{
    net.known();
    let nodes = net.nodes();
    let mut marks = no_marks(alloc, nodes)?;
    let mut places = first_places(alloc, nodes)?;
    let mut carried = carried_by_arcs(alloc, net, preflow)?;
    let mut routes = Routes::none(alloc);
    let mut place = 0;
    while let Some(end) = incoming(net, carried.as_slice(), 1, place) {
        let route = next_route(
            alloc,
            net,
            carried.as_mut_slice(),
            places.as_mut_slice(),
            marks.as_mut_slice(),
            end,
        )?;
        routes.push(route.as_slice())?;
        place = end;
    }
    Ok(routes)
}
