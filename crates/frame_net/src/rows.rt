//! Walks over the row of one node: its pushes, its residuals less its pushes, and its label by its
//! residuals.
ghost use Rattle.std.specs.Prelude.{◌≡◌, ℕ, ◌+◌, ◌-◌, ◌<◌, ◌≤◌, ◌^◌, nat_lt, ◌&&◌, cond, length, slice_index};
ghost use Rattle.frame_net.specs.Flow.{sum_below, least_below};
ghost use Rattle.frame_net.specs.Rows.{row_admissible, node_admissible, IsRowOfPushes};

/// Writes the row of pushes of an active node: its excess goes to the admissible heads in order.
fn push_excess(
    heads: &[u32],
    residuals: &[u32],
    labels: &[u32],
    label: u32,
    excess: u32,
    row: &mut [u32],
)
    requires heads { (k : ℕ) → k < length heads.now → slice_index heads.now k < length labels.now }
    requires residuals { length residuals.now ≡ length heads.now }
    requires row { length row.old ≡ length heads.now }
    requires label { 0 < label }
    ensures { IsRowOfPushes (row_admissible heads.now residuals.now labels.now label)
        excess row.new }
{
    let down = label - 1;
    let mut left = excess;
    for k in 0..heads.len() {
        let mut push = 0;
        if labels[heads[k] as usize] == down {
            push = left.min(residuals[k]);
            left -= push;
        }
        row[k] = push;
    }
}

/// Writes the row of pushes of node `v`: by its excess and label if it is active, else 0s. `nodes`
/// is the number of nodes.
#[tactic(auto, using(crate::proofs::RowLaws::on_row, crate::proofs::RowLaws::off_row, crate::proofs::RowLaws::low_row))]
pub fn write_pushes(
    heads: &[u32],
    residuals: &[u32],
    labels: &[u32],
    nodes: u32,
    v: u32,
    excess: u32,
    row: &mut [u32],
)
    requires v { v < length labels.now }
    requires heads { (k : ℕ) → k < length heads.now → slice_index heads.now k < length labels.now }
    requires residuals { length residuals.now ≡ length heads.now }
    requires row { length row.old ≡ length heads.now }
    ensures { IsRowOfPushes (node_admissible (nat_lt 1 v && nat_lt 0 excess && nat_lt
        (slice_index labels.now v) nodes) heads.now residuals.now labels.now
        (slice_index labels.now v)) excess row.new }
{
    let label = labels[v as usize];
    if v > 1 && excess > 0 && label < nodes {
        if label > 0 {
            push_excess(heads, residuals, labels, label, excess, row);
        } else {
            row.fill(0);
        }
    } else {
        row.fill(0);
    }
}

/// Returns one more than the label of an arc's head if the arc has a residual, else `nodes`.
fn label_over(residual: u32, label: u32, nodes: u32) -> u32
    requires { label + 1 < 2 ^ 32 }
    ensures { result ≡ cond (nat_lt 0 residual) (label + 1) nodes }
{
    if residual > 0 { label + 1 } else { nodes }
}

/// Returns the label of a node by its residuals `row`. It is the least label of a head to which it
/// has a residual, plus one, at most `nodes`.
pub fn relabel(heads: &[u32], row: &[u32], labels: &[u32], nodes: u32) -> u32
    requires heads { (k : ℕ) → k < length heads.now → slice_index heads.now k < length labels.now }
    requires row { length row.now ≡ length heads.now }
    requires labels { (w : ℕ) → w < length labels.now → slice_index labels.now w ≤ nodes }
    requires nodes { nodes + 1 < 2 ^ 32 }
    ensures { result ≡ least_below (length heads.now)
        (λ k. cond (nat_lt 0 (slice_index row.now k))
        (slice_index labels.now (slice_index heads.now k) + 1) nodes) nodes }
{
    let mut least = nodes;
    for k in 0..heads.len() {
        let label = labels[heads[k] as usize];
        least = least.min(label_over(row[k], label, nodes));
    }
    least
}

/// Subtracts a row's own pushes from its residuals, and returns their sum.
pub fn subtract_pushes(pushes: &[u32], row: &mut [u32]) -> u32
    requires len { length pushes.now ≡ length row.old }
    requires within { (k : ℕ) → k < length row.old → slice_index pushes.now k ≤
        slice_index row.old k }
    requires total { sum_below (length row.old) (slice_index pushes.now) < 2 ^ 32 }
    ensures sum { result ≡ sum_below (length row.old) (slice_index pushes.now) }
    ensures row { (k : ℕ) → k < length row.old → slice_index row.new k
        ≡ slice_index row.old k - slice_index pushes.now k }
{
    let mut sum = 0;
    for k in 0..row.len() {
        row[k] -= pushes[k];
        sum += pushes[k];
    }
    sum
}
