ghost use Rattle.std.specs.Prelude.{ℕ, ◌≡◌, ◌+◌, ◌<◌, ◌≤◌, length};
ghost use Rattle.aig_graph.specs.Tables.{table};

/// Returns the entry of a variable that the table covers.
pub fn entry<T: Copy>(entries: &[T], first: u32, var: u32) -> T
    requires from { first ≤ var }
    requires below { var < first + length entries.now }
    ensures { (f : ℕ → T) → entries.now ≡ table first (length entries.now) f → result ≡ f var }
{
    entries[(var - first) as usize]
}
