ghost use Rattle.std.specs.Prelude.{ℕ, List, Option};
ghost use Rattle.aig_graph.specs.Circuits.{Netlist};
ghost use Rattle.certificates.specs.declared.certificate.Certificate.{Certificate as Block};
ghost use Rattle.certificates.specs.declared.merged.MergedLatch.{MergedLatch};
ghost use Rattle.certificate_files.specs.declared.file.CertPart.{CertPart};
ghost use Rattle.certificate_audits.specs.Parts.{PartsLaw, PartsLevelLaw};
ghost use Rattle.certificate_audits.specs.declared.moving.Stage.{Stage};
ghost use Rattle.certificate_audits.specs.Laws.{AuditLaw, CertifiedLaw, MergedAuditLaw, MergedCertifiedLaw, MergedReplayLaw, MergedReplayLevelLaw, ReplayLaw, ReplayLevelLaw};

/// States that if an audit ends certified, all blocks are confirmed and each set is least in its
/// circuit.
///
/// The count of each block is the number of known latches after the move over its set. No closed
/// set of the last circuit needs fewer latches than that has. Under a bound no move makes a path
/// longer than the bound.
pub fn certified_law()
    ensures { (bound : Option ℕ) (held : List ℕ) (c : Netlist) (blocks : List Block)
        → CertifiedLaw bound held c blocks }
{}

/// States that there is one audit: it depends on the circuit, the held latches and the blocks
/// alone.
pub fn audit_law()
    ensures { (bound : Option ℕ) (held : List ℕ) (c : Netlist) (blocks : List Block)
        → AuditLaw bound held c blocks }
{}

/// States [`certified_law`] and [`audit_law`] of circuits whose latches are merged first. The audit
/// is about the merged circuit. There is one for each list of merged latches.
pub fn merged_audit_laws()
    ensures certified { (bound : Option ℕ) (held : List ℕ) (c : Netlist)
        (lines : List MergedLatch) (blocks : List Block)
        → MergedCertifiedLaw bound held c lines blocks }
    ensures one { (bound : Option ℕ) (held : List ℕ) (c : Netlist)
        (lines : List MergedLatch) (blocks : List Block)
        → MergedAuditLaw bound held c lines blocks }
{}

/// States that the circuit that blocks end in behaves as the circuit that they begin with, whoever
/// made the blocks.
///
/// Both have equal values of all properties at every step, for all inputs and all values of free
/// latches at the start. Under a bound no path is longer than the bound, but for those that the
/// circuit has. Both hold too if latches are merged first.
pub fn replay_laws()
    ensures streams { (bound : Option ℕ) (held : List ℕ) (c : Netlist) (blocks : List Block)
        → ReplayLaw bound held c blocks }
    ensures merged { (bound : Option ℕ) (held : List ℕ) (c : Netlist)
        (lines : List MergedLatch) (blocks : List Block)
        → MergedReplayLaw bound held c lines blocks }
    ensures levels { (bound : Option ℕ) (held : List ℕ) (c : Netlist) (blocks : List Block)
        → ReplayLevelLaw bound held c blocks }
    ensures merged_levels { (bound : Option ℕ) (held : List ℕ) (c : Netlist)
        (lines : List MergedLatch) (blocks : List Block)
        → MergedReplayLevelLaw bound held c lines blocks }
{}

/// States [`replay_laws`] of the further parts of a file, whoever made them. What they end in
/// behaves as the circuit that the first of them is about.
pub fn parts_laws()
    ensures streams { (bound : Option ℕ) (stage : Stage) (parts : List CertPart)
        → PartsLaw bound stage parts }
    ensures levels { (bound : Option ℕ) (stage : Stage) (parts : List CertPart)
        → PartsLevelLaw bound stage parts }
{}
