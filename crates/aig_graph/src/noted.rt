//! Memory for tables and lists that notes if some was refused, so that no function between has to
//! hand a refusal on. The caller that began the work asks for it at the end, and throws all away
//! then. Until then a table that was refused is empty and a list lacks entries, so its readers look
//! at its length.

use std::alloc::Global;

/// The allocator of tables and lists, and a note if memory was refused for one.
#[derive(Drop)]
pub struct Memory {
    alloc: Global,
    refused: bool,
}

impl Memory {
    /// Returns memory of which nothing was refused yet.
    pub fn of(alloc: Global) -> Memory {
        Memory {
            alloc,
            refused: false,
        }
    }

    /// Returns a table of `many` copies of `entry`, or an empty one if it is refused.
    pub fn table<T: Copy>(&mut self, entry: T, many: usize) -> Vec<T> {
        match vec![in self.alloc; entry; many] {
            Ok(table) => table,
            Err(_) => self.refused_list(),
        }
    }

    /// Returns a list without entries, with room for `room` of them, or without room if it is
    /// refused.
    pub fn list<T>(&mut self, room: usize) -> Vec<T> {
        match Vec::with_capacity(self.alloc, room) {
            Ok(list) => list,
            Err(_) => self.refused_list(),
        }
    }

    /// Notes that a list was refused, and returns one without entries in its place.
    pub fn refused_list<T>(&mut self) -> Vec<T> {
        self.refuse();
        self.nothing()
    }

    /// Returns a list without entries, which takes no memory.
    pub fn nothing<T>(&self) -> Vec<T> {
        Vec::new(self.alloc)
    }

    /// Puts an entry at the end of a list, unless memory for it is refused.
    pub fn push<T: Drop>(&mut self, list: &mut Vec<T>, entry: T) {
        let refused = list.push(entry).is_err();
        self.refuse_if(refused);
    }

    /// Notes that memory was refused.
    pub fn refuse(&mut self) {
        self.refused = true;
    }

    /// Notes that memory was refused, if `refused`.
    pub fn refuse_if(&mut self, refused: bool) {
        self.refused = self.refused | refused;
    }

    /// Returns true if memory was refused.
    pub fn is_refused(&self) -> bool {
        self.refused
    }

    /// Returns the allocator, for tables whose maker hands a refusal on.
    pub fn alloc(&self) -> Global {
        self.alloc
    }
}
