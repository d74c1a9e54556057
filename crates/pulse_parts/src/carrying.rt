//! Lists of active nodes for new parts, from the lists of the parts before.
ghost use Rattle.std.specs.Prelude.{◌≡◌, ℕ, ◌<◌, ◌≤◌, IfOk, true, length, slice_index_or};
ghost use Rattle.pulse_parts.specs.declared.parts.FlowPart.{FlowPart};
ghost use Rattle.pulse_parts.specs.Listing.{EachListed, Extends, IsListed};
ghost use Rattle.pulse_parts.specs.TakingOver.{TakesOver};

use crate::{FlowPart, NodeList};
use std::alloc::{AllocError, Global};

/// Adds the listed nodes from `first` up to `end`.
fn add_within(listed: &[u32], first: u32, end: u32, list: &mut NodeList)
    ensures extends { Extends first end list.old list.new }
    ensures listed { list.new.complete ≡ true
        → EachListed listed.now (λ v. first ≤ v → v < end → IsListed list.new.nodes.items v) }
{
    for i in 0..listed.len() {
        let v = listed[i];
        if v >= first && v < end {
            list.add(v);
        }
    }
}

/// Adds the nodes from `first` up to `end` that the parts list. If a part's list isn't complete,
/// the new one isn't either.
fn add_listed(parts: &[FlowPart], first: u32, end: u32, list: &mut NodeList)
    ensures extends { Extends first end list.old list.new }
    ensures complete { list.new.complete ≡ true → (i : ℕ) (d : FlowPart) → i < length parts.now
        → (slice_index_or parts.now i d).active.complete ≡ true }
    ensures listed { list.new.complete ≡ true → (i : ℕ) (d : FlowPart) (v : ℕ)
        → i < length parts.now → first ≤ v → v < end
        → IsListed (slice_index_or parts.now i d).active.nodes.items v
        → IsListed list.new.nodes.items v }
{
    for i in 0..parts.len() {
        let part = &parts[i];
        if !part.active.complete {
            list.forget();
            return;
        }
        add_within(part.active.nodes.as_slice(), first, end, list);
    }
}

/// Returns a list of the nodes from `first` up to `end` that the parts list, with room for all
/// nodes in that range.
pub(crate) fn list_of(
    alloc: Global,
    parts: &[FlowPart],
    first: u32,
    end: u32,
) -> Result<NodeList, AllocError>
    requires { first ≤ end }
    ensures { IfOk result (λ list. list.complete ≡ true
        → TakesOver parts.now first end list.nodes.items) }
{
    let mut list = NodeList::with_room(alloc, (end - first) as usize)?;
    list.begin();
    add_listed(parts, first, end, &mut list);
    list.rise();
    Ok(list)
}
