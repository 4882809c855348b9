//! Laws of what stays true while the transmitter or a receiver goes on.
ghost use Rattle.std.specs.Prelude.{ℕ, List, ◌++◌};
ghost use Rattle.ring_board.specs.declared.shared.view.{Load.Load, Record.Record, Taken.Taken};
ghost use Rattle.ring_board.specs.{Bodies.IsLoaded, Runs.AreRuns};

/// States that runs of a transmitted list are also runs of every longer list that begins with this list. The function
/// computes nothing.
pub fn runs_stay_runs()
    ensures { (sent more : List Record) (from : ℕ) (copies : List Taken) → AreRuns sent from copies
        → AreRuns (sent ++ more) from copies }
{}

/// States that a body that was loaded stays loaded in every longer log. The function computes nothing.
pub fn loaded_stays_loaded()
    ensures { (C place : ℕ) (before loads after : List Load) (body : List ℕ) → IsLoaded C loads place body
        → IsLoaded C (before ++ (loads ++ after)) place body }
{}
