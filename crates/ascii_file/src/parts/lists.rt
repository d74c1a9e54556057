//! The properties of a file, as two lists of literals and one of sizes. Outputs, bad states and
//! constraints have lines of one form, and so have justice and fairness. They are parted at the
//! end, by the header's numbers.
use crate::Header;
use crate::parts::by_kind::props;
use aig_graph::{NoMemory, Props};
use std::alloc::Global;
use std::marker::Model;

/// The literals of a file's properties as they come, and the number of literals of each justice
/// property. Literals are the file's own.
pub struct PropertyLists {
    safety: Vec<u32>,
    sizes: Vec<u32>,
    liveness: Vec<u32>,
    /// The sum of the sizes.
    size_sum: u32,
}

impl Drop for PropertyLists {
    // written out: docs/PROOFS.md, Drops and exits
    fn drop(self) {
        let PropertyLists {
            safety: _safety,
            sizes: _sizes,
            liveness: _liveness,
            size_sum: _size_sum,
        } = self;
    }
}

impl Model for PropertyLists {
    ghost use Rattle.std.specs.Prelude.{◌≡◌};
    ghost use Rattle.std.specs.List.{sum};
    ghost use Rattle.ascii_file.specs.parts.Lists.{Lists};

    ghost Value = { Lists };

    ghost view = { λ p. record { safety = p.safety.items; sizes = p.sizes.items; liveness = p.liveness.items } };

    ghost invariant = { λ p. p.size_sum ≡ sum p.sizes.items };
}

impl PropertyLists {
    ghost use Rattle.std.specs.Prelude.{◌≡◌, ◌+◌, ◌<◌, ◌^◌, ◌++◌, ◌∷◌, [], length, All, IfOk, OnOk, OnErr};
    ghost use Rattle.std.specs.List.{sum};
    ghost use Rattle.ascii_file.specs.Raw.{safety_count};
    ghost use Rattle.ascii_file.specs.Meaning.{props_of};
    ghost use Rattle.ascii_file.specs.parts.Lists.{no_lists};

    /// Returns lists of no property. Takes no memory.
    pub fn new(alloc: Global) -> PropertyLists
        ensures { result ≡ no_lists }
    {
        PropertyLists {
            safety: Vec::new(alloc),
            sizes: Vec::new(alloc),
            liveness: Vec::new(alloc),
            size_sum: 0,
        }
    }

    /// Adds a literal of an output, a bad state or a constraint.
    pub fn push_safety(&mut self, lit: u32) -> Result<(), NoMemory>
        ensures ok { OnOk result (self.new ≡ record self.old
            { safety = self.old.safety ++ lit ∷ [] }) }
        ensures err { OnErr result (self.new ≡ self.old) }
    {
        self.safety.push(lit)?;
        Ok(())
    }

    /// Adds a justice property, by the number of its literals.
    pub fn push_size(&mut self, size: u32) -> Result<(), NoMemory>
        requires { sum self.old.sizes + size < 2 ^ 32 }
        ensures ok { OnOk result (self.new ≡ record self.old
            { sizes = self.old.sizes ++ size ∷ [] }) }
        ensures err { OnErr result (self.new ≡ self.old) }
    {
        self.sizes.push(size)?;
        self.size_sum += size;
        Ok(())
    }

    /// Adds a literal of a justice property, or after those a fairness literal.
    pub fn push_liveness(&mut self, lit: u32) -> Result<(), NoMemory>
        ensures ok { OnOk result (self.new ≡ record self.old
            { liveness = self.old.liveness ++ lit ∷ [] }) }
        ensures err { OnErr result (self.new ≡ self.old) }
    {
        self.liveness.push(lit)?;
        Ok(())
    }

    /// Returns the number of literals of all justice properties.
    pub fn size_sum(&self) -> u32
        ensures { result ≡ sum self.now.sizes }
    {
        self.size_sum
    }

    /// Returns the number of literals of outputs, bad states and constraints.
    pub fn safety_len(&self) -> usize
        ensures { result ≡ length self.now.safety }
    {
        self.safety.len()
    }

    /// Returns the number of justice properties.
    pub fn sizes_len(&self) -> usize
        ensures { result ≡ length self.now.sizes }
    {
        self.sizes.len()
    }

    /// Returns the number of literals of justice properties and fairness.
    pub fn liveness_len(&self) -> usize
        ensures { result ≡ length self.now.liveness }
    {
        self.liveness.len()
    }

    /// Returns the literals of outputs, bad states and constraints.
    pub fn safety(&self) -> &[u32]
        ensures { result.now ≡ self.now.safety }
    {
        self.safety.as_slice()
    }

    /// Returns the number of literals of each justice property.
    pub fn sizes(&self) -> &[u32]
        ensures { result.now ≡ self.now.sizes }
    {
        self.sizes.as_slice()
    }

    /// Returns the literals of all justice properties, and then of fairness.
    pub fn liveness(&self) -> &[u32]
        ensures { result.now ≡ self.now.liveness }
    {
        self.liveness.as_slice()
    }

    /// Returns the literals of outputs, bad states and constraints, the sizes, and the literals of
    /// justice properties and fairness.
    pub fn into_parts(self) -> (Vec<u32>, Vec<u32>, Vec<u32>)
        ensures safety { result.0.items ≡ self.safety }
        ensures sizes { result.1.items ≡ self.sizes }
        ensures liveness { result.2.items ≡ self.liveness }
    {
        let PropertyLists {
            safety,
            sizes,
            liveness,
            size_sum: _,
        } = self;
        (safety, sizes, liveness)
    }

    /// Returns the properties by kind, as the header's numbers part them.
    ///
    /// # Errors
    ///
    /// `NoMemory` if memory is refused.
    pub fn into_props(self, alloc: Global, header: &Header) -> Result<Props, NoMemory>
        requires safety { length self.safety ≡ safety_count header.now }
        requires liveness { length self.liveness ≡ sum self.sizes + header.now.fairness }
        requires safety_literals { All (λ lit. lit < 2 ^ 29) self.safety }
        requires liveness_literals { All (λ lit. lit < 2 ^ 29) self.liveness }
        ensures { IfOk result (λ props. props ≡ props_of header.now self.safety self.sizes
            self.liveness) }
    {
        props(
            alloc,
            header,
            self.safety.as_slice(),
            self.sizes.as_slice(),
            self.liveness.as_slice(),
        )
    }
}
