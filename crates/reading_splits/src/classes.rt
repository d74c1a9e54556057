//! The names of classes while a turn parts them.
//!
//! A group that is all of its class keeps the name of the class. If several groups make up a class,
//! the largest keeps it. So few latches are renamed. That is for speed alone: whatever the names,
//! two latches of one group have one name.
use crate::groups::{Group, Groups};
use aig_graph::{Aig, Lit, MAX_VARIABLES, NoMemory};
use std::alloc::Global;

/// The number of variables with the name of a class, and in a turn the number of them that leave
/// it. `largest` is one more than the place of its largest group, or 0.
#[derive(Clone, Copy)]
struct Class {
    size: u32,
    leaving: u32,
    largest: u32,
}

/// A class of no variables.
const NO_CLASS: Class = Class {
    size: 0,
    leaving: 0,
    largest: 0,
};

/// Returns a place in 32 bits, which hold as many places as there can be latches.
fn short(place: usize) -> u32 {
    place.min(u32::MAX as usize) as u32
}

/// Returns the number of latches in the group right before a place, or 0 if there is no such group.
fn size_before(groups: &[Group], place: u32) -> u32 {
    let at = place.wrapping_sub(1) as usize;
    if at < groups.len() {
        groups[at].latches
    } else {
        0
    }
}

/// The classes of latches: the constant's first, and then one for each latch that others may read
/// as.
///
/// The name of the class at a place above 0 is the variable `before` plus that place.
#[derive(Drop)]
pub(crate) struct Classes {
    before: u32,
    classes: Vec<Class>,
}

impl Classes {
    /// Returns the classes of a reading.
    pub(crate) fn of(alloc: Global, aig: &Aig, reads: &[Lit]) -> Result<Classes, NoMemory> {
        let none = vec![in alloc; NO_CLASS; reads.len().saturating_add(1)]?;
        let mut classes = Classes {
            before: aig.first_latch().wrapping_sub(1),
            classes: none,
        };
        classes.grow(Lit::FALSE);
        for k in 0..reads.len() {
            classes.grow(reads[k]);
        }
        Ok(classes)
    }

    /// Counts one more variable with the name of a class.
    fn grow(&mut self, class: Lit) {
        let at = self.place(class);
        if at < self.classes.len() {
            self.classes[at].size = self.classes[at].size.saturating_add(1);
        }
    }

    fn place(&self, class: Lit) -> usize {
        if class.var() == 0 {
            0
        } else {
            class.var().wrapping_sub(self.before) as usize
        }
    }

    /// Counts the group at a place.
    fn count(&mut self, groups: &[Group], group: &Group, place: u32) {
        let at = self.place(group.class);
        if at < self.classes.len() {
            let mut class = self.classes[at];
            class.leaving = class.leaving.saturating_add(group.latches);
            if (class.largest == 0) | (size_before(groups, class.largest) < group.latches) {
                class.largest = place.saturating_add(1);
            }
            self.classes[at] = class;
        }
    }

    /// Returns true if the group at a place keeps the name of its class.
    fn keeps(&self, group: &Group, place: u32) -> bool {
        let at = self.place(group.class);
        if at >= self.classes.len() {
            return false;
        }
        let class = self.classes[at];
        (class.leaving == class.size) & (class.largest == place.saturating_add(1))
    }

    /// Takes a group out of its class, and returns the name of a class of its own.
    fn part(&mut self, group: &Group) -> Result<Lit, NoMemory> {
        let at = self.place(group.class);
        if at < self.classes.len() {
            let mut class = self.classes[at];
            class.size = class.size.wrapping_sub(group.latches);
            class.leaving = class.leaving.wrapping_sub(group.latches);
            self.classes[at] = class;
        }
        let var = (self.before as usize).saturating_add(self.classes.len());
        self.classes.push(Class {
            size: group.latches,
            leaving: 0,
            largest: 0,
        })?;
        if var < MAX_VARIABLES {
            Ok(Lit::new(var as u32, false))
        } else {
            Ok(Lit::FALSE)
        }
    }

    /// Returns the name of the group at a place, once all groups are counted.
    fn name_of(&mut self, group: &Group, place: u32) -> Result<Lit, NoMemory> {
        if self.keeps(group, place) {
            return Ok(group.class);
        }
        self.part(group)
    }

    /// Ends the turn for a class: nothing leaves it any more.
    fn settle(&mut self, class: Lit) {
        let at = self.place(class);
        if at < self.classes.len() {
            self.classes[at].leaving = 0;
            self.classes[at].largest = 0;
        }
    }

    /// Appends the name of each group to `names`.
    fn put_names(&mut self, groups: &[Group], names: &mut Vec<Lit>) -> Result<(), NoMemory> {
        for place in 0..groups.len() {
            self.count(groups, &groups[place], short(place));
        }
        for place in 0..groups.len() {
            let name = self.name_of(&groups[place], short(place))?;
            names.push(name)?;
        }
        for place in 0..groups.len() {
            self.settle(groups[place].class);
        }
        Ok(())
    }

    /// Names the groups of a turn.
    pub(crate) fn name(&mut self, groups: &mut Groups) -> Result<(), NoMemory> {
        self.put_names(groups.groups.as_slice(), &mut groups.names)
    }
}
