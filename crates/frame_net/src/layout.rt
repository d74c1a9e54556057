//! The nodes of a network, and the links of each. Nodes 0 and 1 are the source and the sink. Then
//! comes a node after each known latch, then for each passable gate one before it and one after it.
//! A variable's number is counted as if a gate had one node. With two known latches and two
//! passable gates the numbers are 2, 3, 4, 5. The nodes are 2, 3 (after the latches), 4 and 5
//! (before and after the first gate), 6 and 7 (the second). So the node before a gate is `2 *
//! number - base`, and `base` is the first gate's number.
ghost use Rattle.std.specs.Prelude.{ℕ, Bool, List, ◌≡◌, ◌+◌, ◌-◌, ◌<◌, ◌≤◌, ◌^◌, nat_le, take, length, IfOk, true, if◌then◌else◌};
ghost use Rattle.std.specs.List.{slice_index_or};
ghost use Rattle.aig_graph.specs.Counting.{count_below};
ghost use Rattle.aig_graph.specs.Marking.{AreAllMarks};
ghost use Rattle.aig_graph.specs.Tables.{table};
ghost use Rattle.aig_graph.specs.Graph.{IsGraph, first_latch, first_gate, variables_end, latches_and_gates};
ghost use Rattle.frame_net.specs.Passable.{IsPassSet};
ghost use Rattle.frame_net.specs.Edges.{AreLinks};
ghost use Rattle.frame_net.specs.Links.{NumbersFit};
ghost use Rattle.frame_net.specs.Capacity.{has_node, is_observed, latch_number, latch_count, before_number, node_variables};

use crate::links::NodeLinks;
use crate::pass_set::PassSet;
use aig_graph::{
    Aig, Keep, NoMemory, Props, count_marks, mark_at, mark_held, mark_read, marked_variables,
    number_marks,
};
use std::alloc::Global;

/// A graph with its properties and held latches, and the tables by which its network is built, from
/// the first latch on. `leaving` says if a variable's output leaves the frame. `numbers` has the
/// number of the node after a latch, or of the one before a gate if each gate had one node. The
/// ghost fields say that the tables are of this graph, so functions over a `Layout` need no premise
/// for it.
#[derive(Drop)]
pub struct Layout<'a> {
    pub aig: &'a Aig,
    /// The properties of which the tables were made. Like `keep`, only clauses read it.
    pub props: &'a Props,
    pub keep: &'a Keep,
    pub leaving: Vec<bool>,
    pub numbers: Vec<u32>,
    pub variables: Vec<u32>,
    pub latches: u32,
    ghost graph: { IsGraph aig.now },
    ghost leaving_are: { leaving.items ≡ table (first_latch aig.now)
        (latches_and_gates aig.now) (is_observed aig.now props.now keep.now) },
    ghost numbers_are: { numbers.items ≡ table (first_latch aig.now)
        (latches_and_gates aig.now) (latch_number aig.now keep.now) },
    ghost variables_are: { variables.items ≡ node_variables aig.now keep.now },
    ghost latches_are: { latches ≡ latch_count aig.now keep.now },
}

/// Marks what is held, or read by a gate that isn't passable, a next literal or a property.
pub fn leaving_marks(
    alloc: Global,
    aig: &Aig,
    props: &Props,
    pass: &PassSet,
    keep: &Keep,
) -> Result<Vec<bool>, NoMemory>
    requires { IsPassSet aig.now keep.now pass.now }
    ensures { IfOk result (λ marks. marks.items ≡ table (first_latch aig.now)
        (latches_and_gates aig.now) (is_observed aig.now props.now keep.now)) }
{
    let mut leaving = vec![in alloc; false; aig.latches_and_gates()]?;
    let marks = leaving.as_mut_slice();
    mark_held(marks, aig, keep);
    mark_read(marks, aig, props, pass.marks());
    Ok(leaving)
}

/// Marks the known latches and the passable gates.
fn node_marks(alloc: Global, aig: &Aig, pass: &PassSet) -> Result<Vec<bool>, NoMemory>
    ensures { IfOk result (λ marks. (held : List ℕ) → IsPassSet aig.now held pass.now
        → marks.items
        ≡ table (first_latch aig.now) (latches_and_gates aig.now) (has_node aig.now held)) }
{
    let first = aig.first_latch();
    let entries = aig.latches_and_gates();
    let mut marks = Vec::with_capacity(alloc, entries)?;
    for k in 0..entries {
        let var = first + k as u32;
        marks.push(has_node(aig, pass, var))?;
    }
    Ok(marks)
}

#[tactic(auto, unfolding(crate::specs::Capacity::has_node))]
fn has_node(aig: &Aig, pass: &PassSet, var: u32) -> bool
    ensures { (held : List ℕ) → IsPassSet aig.now held pass.now
        → result ≡ has_node aig.now held var }
{
    aig.is_known_latch(var) || pass.has(var)
}

/// Returns the entry of a variable, or 0 if the table has none.
fn entry_or_zero(entries: &[u32], first: u32, var: u32) -> u32
    ensures { result ≡ (if nat_le first var then slice_index_or entries.now
        (var - first) 0 else 0) }
{
    if var < first {
        return 0;
    }
    entries.get((var - first) as usize).copied().unwrap_or(0)
}

/// Returns the number of known latches, by the marks of the variables with nodes.
fn count_latches(marks: &[bool], latches: usize) -> u32
    requires among { latches ≤ length marks.now }
    requires small { latches ≤ 2 ^ 30 }
    ensures { (first : ℕ) (p : ℕ → Bool) → AreAllMarks first (take latches marks.now) p
        → result ≡ count_below p (first + latches) }
{
    count_marks(&marks[..latches])
}

impl<'a> Layout<'a> {
    ghost use Rattle.frame_net.specs.Layout.{nodes_of, capacity_of, links_in};

    /// Returns the tables of a graph, its properties and its held latches.
    pub fn new(
        alloc: Global,
        aig: &'a Aig,
        props: &'a Props,
        pass: &PassSet,
        keep: &'a Keep,
    ) -> Result<Layout<'a>, NoMemory>
        requires { IsPassSet aig.now keep.now pass.now }
        ensures graph { IfOk result (λ layout. layout.aig.now ≡ aig.now) }
        ensures properties { IfOk result (λ layout. layout.props.now ≡ props.now) }
        ensures held { IfOk result (λ layout. layout.keep.now ≡ keep.now) }
    {
        let first = aig.first_latch();
        let leaving = leaving_marks(alloc, aig, props, pass, keep)?;
        let marks = node_marks(alloc, aig, pass)?;
        let nodes = marks.as_slice();
        let numbers = number_marks(alloc, nodes, 2)?;
        let variables = marked_variables(alloc, first, nodes)?;
        Ok(Layout {
            aig,
            props,
            keep,
            leaving,
            numbers,
            variables,
            latches: count_latches(nodes, aig.latches().len()),
        })
    }

    /// Returns the links of a node, which isn't the source or the sink.
    #[inline(always)]
    pub fn links(&self, v: u32) -> NodeLinks
        requires from { 2 ≤ v }
        requires below { v < nodes_of self.now }
        ensures links { AreLinks (capacity_of self.now) v (links_in self.now result) }
        ensures fit { NumbersFit result }
    {
        let place = v - 2;
        if place < self.latches {
            let var = self.variables[place as usize];
            return NodeLinks::AfterLatch(self.is_observed(var));
        }
        let side = place - self.latches;
        let var = self.variables[(self.latches + side / 2) as usize];
        if side % 2 == 1 {
            NodeLinks::AfterGate(self.is_observed(var), v - 1)
        } else {
            self.before_links(var)
        }
    }

    /// Returns the links of the node before a gate.
    fn before_links(&self, var: u32) -> NodeLinks
        requires from { first_gate self.now.aig.now ≤ var }
        requires below { var < variables_end self.now.aig.now }
        requires node { has_node self.now.aig.now self.now.keep.now var ≡ true }
        ensures links { AreLinks (capacity_of self.now)
            (before_number self.now.aig.now self.now.keep.now var) (links_in self.now result) }
        ensures fit { NumbersFit result }
    {
        match self.aig.gate(var) {
            Some(gate) => {
                let first = self.number(gate.rhs1.var());
                let second = self.number(gate.rhs0.var());
                NodeLinks::BeforeGate(first, second)
            }
            None => NodeLinks::BeforeGate(0, 0),
        }
    }

    /// Returns true if the variable's output leaves the frame.
    fn is_observed(&self, var: u32) -> bool
        ensures { first_latch self.now.aig.now ≤ var → var < variables_end self.now.aig.now
            → result ≡ is_observed self.now.aig.now self.now.props.now self.now.keep.now var }
    {
        mark_at(self.leaving.as_slice(), self.aig.first_latch(), var)
    }

    /// Returns the variable's number.
    fn number(&self, var: u32) -> u32
        ensures { first_latch self.now.aig.now ≤ var → var < variables_end self.now.aig.now
            → result ≡ latch_number self.now.aig.now self.now.keep.now var }
    {
        entry_or_zero(self.numbers.as_slice(), self.aig.first_latch(), var)
    }

    /// Returns the number of nodes.
    pub fn nodes(&self) -> u32
        ensures { result ≡ nodes_of self.now }
    {
        let variables = self.variables.len() as u32;
        2 + self.latches + 2 * (variables - self.latches)
    }
}
