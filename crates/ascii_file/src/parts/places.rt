//! The places of a file's variables. Variables that are small beside the number of lines so far
//! have them in a table, and others by hashing. An ordinary file needs no hashing, and one of few
//! lines with great numbers needs little room.
use indexmap::IndexMap;
use std::alloc::{AllocError, Global};

/// The number of variables that there is room for at first, and that each place adds room for.
const SPARE: u32 = 256;

const VARIABLES_A_PLACE: u32 = 4;

/// For some variables a place each.
pub struct Places {
    /// The place of each variable from 0 on, plus one; 0 for a variable that has none here.
    near: Vec<u32>,
    /// The places of variables that are far above their number.
    far: IndexMap<u32, u32>,
}

impl Drop for Places {
    // written out: docs/PROOFS.md, Drops and exits
    fn drop(self) {
        let Places {
            near: _near,
            far: _far,
        } = self;
    }
}

impl Places {
    ghost use Rattle.std.specs.Prelude.{ℕ, ◌≡◌, ◌==◌, ◌^◌, ◌<◌, None, Some, OnOk, OnErr, get_or, length, if◌then◌else◌};
    ghost use Rattle.ascii_file.specs.parts.Places.{place_of};

    /// Returns a table of no places. Takes no memory.
    pub fn new(alloc: Global) -> Places
        ensures { (v : ℕ) → place_of result v ≡ None }
    {
        Places {
            near: Vec::new(alloc),
            far: IndexMap::new(alloc),
        }
    }

    /// Returns the place of the variable.
    pub fn place(&self, variable: u32) -> Option<u32>
        ensures { result ≡ place_of self.now variable }
    {
        let next = self.next(variable);
        if next > 0 {
            Some(next - 1)
        } else {
            self.far.get(&variable).copied()
        }
    }

    /// Returns what the table has for the variable.
    fn next(&self, variable: u32) -> u32
        ensures { result ≡ get_or self.now.near.items variable 0 }
    {
        match self.near.get(variable as usize) {
            Some(next) => *next,
            None => 0,
        }
    }

    /// Gives a variable that has no place this one. An `Err` changes nothing.
    ///
    /// The room grows with the greatest place so far, and beyond that with the variables, however
    /// great they are.
    pub fn insert(&mut self, variable: u32, place: u32) -> Result<(), AllocError>
        requires absent { place_of self.old variable ≡ None }
        requires few { place < 2 ^ 29 }
        ensures ok { OnOk result ((v : ℕ) → place_of self.new v
            ≡ (if v == variable then Some place else place_of self.old v)) }
        ensures err { OnErr result ((v : ℕ) → place_of self.new v ≡ place_of self.old v) }
    {
        if variable < VARIABLES_A_PLACE * (place + SPARE) {
            self.extend_near(variable)?;
            self.near[variable as usize] = place + 1;
        } else {
            self.insert_far(variable, place)?;
        }
        Ok(())
    }

    /// Lengthens the table up to the variable.
    fn extend_near(&mut self, variable: u32) -> Result<(), AllocError>
        ensures places { (v : ℕ) → place_of self.new v ≡ place_of self.old v }
        ensures room { OnOk result (variable < length self.new.near.items) }
    {
        while self.near.len() <= variable as usize {
            self.near.push(0)?;
        }
        Ok(())
    }

    fn insert_far(&mut self, variable: u32, place: u32) -> Result<(), AllocError>
        requires absent { place_of self.old variable ≡ None }
        ensures ok { OnOk result ((v : ℕ) → place_of self.new v
            ≡ (if v == variable then Some place else place_of self.old v)) }
        ensures err { OnErr result ((v : ℕ) → place_of self.new v ≡ place_of self.old v) }
    {
        self.far.insert(variable, place)?;
        Ok(())
    }
}
