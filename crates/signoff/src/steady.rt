//! The run over objects that never fail, for those who embed the sign-off: there its answers are complete.
ghost use Rattle.std.specs.Prelude.{◌≡◌, ◌≢◌, ◌⊎◌, Some};
ghost use Rattle.rsfq_ids.specs.Offence.{HasNoWindow};
ghost use Rattle.rsfq_outside.specs.Answers.{ExactlyWhere};
ghost use Rattle.signoff.specs.Words.{texts, AsksNothing};
ghost use Rattle.signoff.specs.Verdict.{HasWindow, IsShallow};
ghost use Rattle.signoff.specs.Run.{IfTold, IsRefusable, HasDesign};

use crate::run::sign_off_run;
use rsfq_outside::{Status, SteadyFolder, SteadySink};
use std::alloc::Global;

/// The status of a sign-off whose files stand in memory, with no text. No fault can come, and where memory is not wanting the
/// netlist alone decides.
pub fn sign_off_status(alloc: Global, words: &[String], folder: &mut SteadyFolder) -> Status
    ensures no_fault { result ≢ Status.Fault }

    // When each answer comes, memory apart.
    ensures words { ExactlyWhere (AsksNothing (texts words.now)) Status.Words result }
    ensures accepted { IfTold (Some folder.old) (texts words.now) (λ name times netlist. ExactlyWhere (HasDesign times netlist (λ design. HasNoWindow design × IsShallow design)) Status.Accepted result) }
    ensures rejected { IfTold (Some folder.old) (texts words.now) (λ name times netlist. ExactlyWhere (HasDesign times netlist HasWindow) Status.Rejected result) }
    ensures refused { IfTold (Some folder.old) (texts words.now) (λ name times netlist. ExactlyWhere (IsRefusable times netlist) Status.Refused result) }

    ensures folder { folder.new ≡ folder.old }
{
    let mut out = SteadySink::new();
    sign_off_run(alloc, words, folder, &mut out)
}
