//! The second circuit whose network was worked by hand, and networks. The first is `TWO_LATCHES`.
use aag_text::{ReadError, read_aag};
use aig_graph::{Circuit, Keep, NoMemory};
use cut_cert::network;
use frame_net::{Net, passable};
use std::alloc::Global;

/// Four inputs, a latch at each, the gates of the first two and of the last two latches. The gate
/// of both is variable 11 and the output.
pub(crate) const FOUR_LATCHES: &[u8] =
    b"aag 11 4 4 1 3\n2\n4\n6\n8\n10 2\n12 4\n14 6\n16 8\n22\n18 12 10\n20 16 14\n22 20 18\n";

/// Returns the network of a circuit that is read, no latch held.
pub(crate) fn net_of_text(alloc: Global, text: &[u8]) -> Result<Net, ReadError> {
    let circuit = read_aag(alloc, text)?;
    let net = network(alloc, &circuit, &Keep::none());
    drop(circuit);
    match net {
        Ok(net) => Ok(net),
        Err(_) => Err(ReadError::NoMemory),
    }
}

/// Returns the network of a circuit, built of its passable gates, no latch held.
pub(crate) fn built(alloc: Global, circuit: &Circuit) -> Result<Net, NoMemory> {
    let keep = Keep::none();
    let pass = passable(alloc, circuit.aig(), &keep)?;
    Net::build(alloc, circuit.aig(), circuit.props(), &pass, &keep)
}
