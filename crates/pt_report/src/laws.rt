//! What holds of the texts, whatever they are printed for.

ghost use Rattle.std.specs.Prelude.{◌≤◌, ◌<◌, ◌^◌};
ghost use Rattle.pt_path.specs.declared.path.Path.{Path};
ghost use Rattle.pt_path.specs.Paths.{IsLetter, IsPath};
ghost use Rattle.pt_report.specs.Shown.{path_text};

/// What is printed of a path is read as that path.
#[tactic(auto, using(crate::proofs::Paths::path_reads_lem))]
pub fn path_reads()
    ensures { (p : Path) → 1 ≤ p.number → p.number < 2 ^ 64 → IsLetter p.letter → IsPath (path_text p) p }
{}
