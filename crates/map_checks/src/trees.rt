//! Cases that together cover all values: each is answered, or split into the two values of one more
//! input or latch.
ghost use Rattle.std.specs.Prelude.{ℕ, ◌≡◌, ◌++◌, ◌⊎◌, [], ◌∷◌, IfOk, IfSome, OnOk, length};
ghost use Rattle.aig_graph.specs.Circuits.{Netlist};
ghost use Rattle.aig_graph.specs.Graph.{IsGraph};
ghost use Rattle.map_checks.specs.Answers.{AreFitting};
ghost use Rattle.map_checks.specs.Parts.{AreShownWhere, IsMarked, IsTree, parts};

use crate::cases::{Asked, ask};
use crate::comparing::is_marked;
use aig_graph::{Circuit, Lit, NoMemory, Sequence};
use gate_sharing::SharingError;
use std::alloc::Global;

/// How many variables a case is of at most.
const DEEPEST: usize = 8;

/// The cases that are to be asked yet, by part whether those before show it, and how many more
/// cases may be asked.
pub(crate) struct Tree {
    pub(crate) pending: Vec<Sequence<Lit>>,
    pub(crate) shown: Vec<bool>,
    pub(crate) left: u32,
    /// What the next case is split by before it is asked, if it is.
    then: Option<Lit>,
}

impl Drop for Tree {
    // written out: docs/PROOFS.md, Drops and exits
    fn drop(self) {
        let Tree {
            pending: _pending,
            shown: _shown,
            left: _left,
            then: _then,
        } = self;
    }
}

/// Returns a case with one more literal.
fn with_literal(alloc: Global, case: &[Lit], lit: Lit) -> Result<Sequence<Lit>, NoMemory>
    ensures { IfOk result (λ more. more ≡ lit ∷ case.now) }
{
    let mut lits = Vec::new(alloc);
    lits.push(lit)?;
    lits.extend_from_slice(case)?;
    Ok(Sequence::from_vec(lits))
}

/// Puts a case for each value of a literal after the others.
fn split(
    alloc: Global,
    pending: &mut Vec<Sequence<Lit>>,
    case: &[Lit],
    lit: Lit,
    other: Lit,
) -> Result<(), NoMemory>
    ensures { OnOk result (pending.new.items
        ≡ pending.old.items ++ (other ∷ case.now) ∷ [] ++ (lit ∷ case.now) ∷ []) }
{
    pending.push(with_literal(alloc, case, other)?)?;
    pending.push(with_literal(alloc, case, lit)?)?;
    Ok(())
}

/// Leaves the marks that are among these too.
fn narrow(shown: &mut [bool], marks: &[bool])
    ensures long { length shown.new ≡ length shown.old }
    ensures both { (part : ℕ) → IsMarked shown.new part
        → IsMarked shown.old part × IsMarked marks.now part }
{
    for part in 0..shown.len() {
        if !is_marked(marks, part) {
            shown[part] = false;
        }
    }
}

/// Adds these marks.
fn widen(marks: &mut [bool], shown: &[bool])
    ensures long { length marks.new ≡ length marks.old }
    ensures either { (part : ℕ) → IsMarked marks.new part
        → IsMarked marks.old part ⊎ IsMarked shown.now part }
{
    for part in 0..marks.len() {
        if is_marked(shown, part) {
            marks[part] = true;
        }
    }
}

impl Tree {
    /// Returns one case, of no variable, for `count` parts.
    fn begun(alloc: Global, count: usize, left: u32) -> Result<Tree, NoMemory>
        ensures { IfOk result (λ tree. (c d m : Netlist) → count ≡ parts d m
            → IsTree c d m tree.pending.items tree.shown.items) }
    {
        let shown = vec![in alloc; true; count]?;
        let mut pending = Vec::new(alloc);
        pending.push(Sequence::empty(alloc))?;
        Ok(Tree {
            pending,
            shown,
            left,
            then: None,
        })
    }

    /// Returns the tree for `count` parts in which the case of no variable is answered.
    fn answered(alloc: Global, count: usize, left: u32, asked: &Asked) -> Result<Tree, NoMemory>
        ensures { IfOk result (λ tree. (c d m : Netlist) → count ≡ parts d m → IsGraph c.aig
            → AreShownWhere c d m [] asked.now.marks.items
            → IsTree c d m tree.pending.items tree.shown.items) }
    {
        let mut tree = Tree {
            pending: Vec::new(alloc),
            shown: vec![in alloc; true; count]?,
            left,
            then: None,
        };
        tree.answer(alloc, &[], asked)?;
        Ok(tree)
    }

    /// Returns the tree for `count` parts in which `left` cases may be asked. If the case of no
    /// variable was asked, it is one of them.
    pub(crate) fn of(
        alloc: Global,
        count: usize,
        left: u32,
        asked: Option<Asked>,
    ) -> Result<Tree, NoMemory>
        ensures { IfOk result (λ tree. (c d m : Netlist) → count ≡ parts d m → IsGraph c.aig
            → IfSome asked (λ asked. AreShownWhere c d m [] asked.marks.items)
            → IsTree c d m tree.pending.items tree.shown.items) }
    {
        match asked {
            Some(asked) => Tree::answered(alloc, count, left.saturating_sub(1), &asked),
            None => {
                let tree = Tree::begun(alloc, count, left)?;
                Ok(tree)
            }
        }
    }

    /// Takes what was shown in the case that was taken out last, or splits it.
    fn answer(&mut self, alloc: Global, case: &[Lit], asked: &Asked) -> Result<(), NoMemory>
        ensures { OnOk result ((c d m : Netlist) → IsGraph c.aig
            → AreShownWhere c d m case.now asked.now.marks.items
            → IsTree c d m (self.old.pending.items ++ case.now ∷ []) self.old.shown.items
            → IsTree c d m self.new.pending.items self.new.shown.items) }
    {
        let open = if case.len() < DEEPEST {
            asked.split
        } else {
            None
        };
        match open {
            Some(choice) => {
                self.then = choice.then;
                split(alloc, &mut self.pending, case, choice.lit, choice.lit.not())
            }
            None => {
                narrow(self.shown.as_mut_slice(), asked.marks.as_slice());
                Ok(())
            }
        }
    }

    /// Splits the case that was taken out last, unasked.
    fn part(&mut self, alloc: Global, case: &[Lit], lit: Lit) -> Result<(), NoMemory>
        ensures { OnOk result ((c d m : Netlist) → IsGraph c.aig
            → IsTree c d m (self.old.pending.items ++ case.now ∷ []) self.old.shown.items
            → IsTree c d m self.new.pending.items self.new.shown.items) }
    {
        split(alloc, &mut self.pending, case, lit, lit.not())
    }

    /// Adds the marks of the parts that all cases show.
    pub(crate) fn add_to(&self, marks: &mut Vec<bool>)
        ensures { (c d m : Netlist) → IsTree c d m self.now.pending.items self.now.shown.items
            → AreShownWhere c d m [] marks.old.items → AreShownWhere c d m [] marks.new.items }
    {
        if self.pending.is_empty() {
            widen(marks.as_mut_slice(), self.shown.as_slice());
        }
    }
}

/// Asks the next case for a part, unless the part isn't shown in a case before or as many cases as
/// may be were asked.
pub(crate) fn step(
    alloc: Global,
    first: &Circuit,
    second: &Circuit,
    map: &Circuit,
    part: usize,
    tree: &mut Tree,
) -> Result<(), SharingError>
    requires fitting { AreFitting first.now second.now map.now }
    requires latches { map.now.aig.latches ≡ [] }
    ensures { OnOk result (IsTree first.now second.now map.now tree.old.pending.items
        tree.old.shown.items → IsTree first.now second.now map.now tree.new.pending.items
        tree.new.shown.items) }
{
    first.known();
    if tree.left == 0 || !is_marked(tree.shown.as_slice(), part) {
        return Ok(());
    }
    tree.left -= 1;
    let Some(case) = tree.pending.pop() else {
        return Ok(());
    };
    if let Some(lit) = tree.then.take() {
        if case.len() < DEEPEST {
            tree.part(alloc, case.as_slice(), lit)?;
            return Ok(());
        }
    }
    let asked = ask(alloc, first, second, map, case.as_slice(), part)?;
    tree.answer(alloc, case.as_slice(), &asked)?;
    Ok(())
}
