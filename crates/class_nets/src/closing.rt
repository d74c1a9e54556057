//! The circuit of classes, closed again: each latch gets back its hold and its masks. The latches
//! of the first circuit come first, in their order.

use crate::nets::{ClassLatch, Net, literal_at, set_literal};
use aig_graph::{Lit, Memory, Reset};
use backward_sets::{DraftLatch, DraftReset, Literal, Pair, entry, set_entry};
use checked_tables::put_if_covered;
use hold_drafts::{Sharing, TRUE};

/// A circuit that is closed, as numbers.
pub struct Closure {
    pub latches: Vec<DraftLatch>,
    pub gates: Vec<Pair>,
    /// The literals of the latches and gates of the first circuit that properties read.
    pub stands: Vec<Literal>,
    /// The number that each latch had in the circuit of classes.
    pub order: Vec<u32>,
}

impl Drop for Closure {
    // written out: docs/PROOFS.md, Drops and exits
    fn drop(self) {
        let Closure {
            latches: _latches,
            gates: _gates,
            stands: _stands,
            order: _order,
        } = self;
    }
}

/// Returns the reset of a draft's latch.
fn draft_reset(reset: Reset) -> DraftReset {
    match reset {
        Reset::Zero => DraftReset::Zero,
        Reset::One => DraftReset::One,
        Reset::Free => DraftReset::Free,
    }
}

/// Returns a latch of a draft. If it is one of the first circuit, `origin` is its position there.
pub fn draft_latch(next: Literal, reset: Reset, origin: Option<u32>) -> DraftLatch {
    DraftLatch {
        next,
        reset: draft_reset(reset),
        origin,
        held: false,
        name: 0,
        list: 0,
    }
}

/// Returns the position in the first circuit, of `latches` latches, that a latch still has.
fn origin_of(latch: &ClassLatch, latches: u32) -> Option<u32> {
    let place = latch.value.var().wrapping_sub(1);
    if (place < latches) & !latch.value.is_negated() {
        Some(place)
    } else {
        None
    }
}

/// Returns the numbers of the latches, those of the first circuit first, in their order.
fn order_of(memory: &mut Memory, net: &Net, latches: u32) -> Vec<u32> {
    let mut places = memory.table(0u32, latches as usize);
    let mut order = memory.list(net.latches.len());
    for place in 0..net.many_latches() {
        if let Some(origin) = origin_of(&net.latch(place), latches) {
            set_entry(places.as_mut_slice(), origin, place.wrapping_add(1));
        }
    }
    for place in &places {
        if *place > 0 {
            memory.push(&mut order, place.wrapping_sub(1));
        }
    }
    for place in 0..net.many_latches() {
        let known = origin_of(&net.latch(place), latches);
        let is_put = match known {
            Some(origin) => entry(places.as_slice(), origin) == place.wrapping_add(1),
            None => false,
        };
        if !is_put {
            memory.push(&mut order, place);
        }
    }
    order
}

/// Returns a literal that is `lit` if the mask is 1, and else the reset.
fn masked(
    memory: &mut Memory,
    gates: &mut Sharing,
    lit: Literal,
    mask: Literal,
    reset: Reset,
) -> Literal {
    let starts_at_1 = reset == Reset::One;
    gates
        .and(memory, lit.negated_if(starts_at_1), mask)
        .negated_if(starts_at_1)
}

/// The gates of the closed circuit, and the replacements for the variables of the open one.
#[derive(Drop)]
struct Closing<'a> {
    net: &'a Net,
    gates: Sharing,
    stands: Vec<Literal>,
}

impl<'a> Closing<'a> {
    fn new(memory: &mut Memory, net: &'a Net) -> Closing<'a> {
        Closing {
            net,
            gates: Sharing::new(memory, net.first_gate(), net.gates.len()),
            stands: memory.table(Literal::FALSE, net.size()),
        }
    }

    /// Returns the replacement for a literal.
    fn literal(&self, lit: Literal) -> Literal {
        let place = self.net.place(lit.var()) as usize;
        if place < self.stands.len() {
            self.stands[place].signed_as(lit)
        } else {
            lit
        }
    }

    /// Puts the latches, which get new numbers in this order.
    fn put_latches(&mut self, order: &[u32]) {
        let mut var = self.net.first_latch();
        for place in order {
            set_literal(self.stands.as_mut_slice(), *place, Literal::of(var));
            var = var.wrapping_add(1);
        }
    }

    /// Gives readers of latches their masks, which are those of latches that have none.
    fn put_read_masks(&mut self, memory: &mut Memory) {
        for place in 0..self.net.many_latches() {
            let latch = self.net.latch(place);
            let code = self.net.class(latch.class).read_mask;
            if code != TRUE.code {
                let mask = self.literal(Literal { code });
                let own = literal_at(self.stands.as_slice(), place as usize);
                let read = masked(memory, &mut self.gates, own, mask, latch.reset);
                set_literal(self.stands.as_mut_slice(), place, read);
            }
        }
    }

    /// Puts the gates.
    fn put_gates(&mut self, memory: &mut Memory) {
        let latches = self.net.many_latches();
        for place in 0..self.net.many_gates() {
            let pair = self.net.gate(place);
            let larger = self.literal(pair.larger);
            let smaller = self.literal(pair.smaller);
            let own = self.gates.and(memory, larger, smaller);
            set_literal(self.stands.as_mut_slice(), latches.wrapping_add(place), own);
        }
    }

    /// Returns the next literal of a latch, whose own literal is `own`.
    fn next(&mut self, memory: &mut Memory, latch: &ClassLatch, own: Literal) -> Literal {
        let class = self.net.class(latch.class);
        let hold = self.literal(Literal { code: class.hold });
        let mask = self.literal(Literal {
            code: class.load_mask,
        });
        let bare = self.literal(latch.next);
        let load = masked(memory, &mut self.gates, bare, mask, latch.reset);
        if hold == Literal::FALSE {
            load
        } else {
            self.gates.mux(memory, hold, own, load)
        }
    }

    /// Returns the latches, in this order.
    fn latches(&mut self, memory: &mut Memory, order: &[u32], known: u32) -> Vec<DraftLatch> {
        let mut latches = memory.list(order.len());
        let mut var = self.net.first_latch();
        for place in order {
            let latch = self.net.latch(*place);
            let next = self.next(memory, &latch, Literal::of(var));
            let origin = origin_of(&latch, known);
            memory.push(&mut latches, draft_latch(next, latch.reset, origin));
            var = var.wrapping_add(1);
        }
        latches
    }

    /// Returns the replacement for each variable that a property of the first circuit reads, by
    /// variable from its first latch on. That circuit has `size` latches and gates.
    fn property_stands(
        &self,
        memory: &mut Memory,
        properties: &[Lit],
        size: usize,
    ) -> Vec<Literal> {
        let mut stands = memory.table(Literal::FALSE, size);
        let first = self.net.first_latch();
        for place in 0..properties.len() {
            let lit = properties[place];
            let own = self.literal(literal_at(self.net.observed.as_slice(), place));
            let own = own.negated_if(lit.is_negated());
            let place = lit.var().wrapping_sub(first) as usize;
            put_if_covered(stands.as_mut_slice(), place, own);
        }
        stands
    }
}

/// Returns a circuit of classes, closed. The first circuit has `latches` latches, `size` latches
/// and gates, and these literals of properties.
pub(crate) fn closed(
    memory: &mut Memory,
    net: &Net,
    properties: &[Lit],
    latches: u32,
    size: usize,
) -> Closure {
    let order = order_of(memory, net, latches);
    let mut closing = Closing::new(memory, net);
    closing.put_latches(order.as_slice());
    closing.put_read_masks(memory);
    closing.put_gates(memory);
    let drafted = closing.latches(memory, order.as_slice(), latches);
    Closure {
        latches: drafted,
        stands: closing.property_stands(memory, properties, size),
        gates: closing.gates.into_gates(),
        order,
    }
}
