//! Laws of what a run comes to. The functions do nothing, and their contracts say the laws.

ghost use Rattle.std.specs.Prelude.{◌≡◌, ◌≤◌, ℕ, List, Option, Some, true, false};
ghost use Rattle.dn_io.specs.Calls.{Call};
ghost use Rattle.dn_io.specs.Files.{Files};
ghost use Rattle.dn_io.specs.Told.{with_end};
ghost use Rattle.dn_run.specs.Alike.{AreAlike};
ghost use Rattle.dn_run.specs.CommandLine.{Run, RunWords, command_of};
ghost use Rattle.dn_run.specs.Ending.{Ruled};
ghost use Rattle.dn_run.specs.Exit.{exit_number, exit_of};
ghost use Rattle.dn_run.specs.Run.{FromWords, IsDue, IsWritten};
ghost use Rattle.dn_run.specs.RunReport.{IsReportOf};
ghost use Rattle.dn_run.specs.Stage.{may_end_early, is_fault};
ghost use Rattle.dn_run.specs.declared.status.Status.{Status};
ghost use Rattle.dn_run.specs.declared.status.Verdict.{Verdict};

/// Words, files and the states of the calls fix the verdict of a run, and its line where words, a topology or a script
/// were refused. Where the jobs of a `run` ran the texts may differ, since a history may be any shuffle that keeps the
/// jobs' orders. Of `make` the words alone fix the whole text.
pub fn runs_have_one_verdict()
    ensures alike { (words : List (List ℕ)) (files : Files) (calls : List Call) (v w : Verdict) (x y : List ℕ)
        → FromWords words (Some files) calls (Ruled v x)
        → FromWords words (Some files) calls (Ruled w y) → AreAlike v x w y }
    ensures line { (words : List (List ℕ)) (files : Files) (calls : List Call) (v w : Verdict) (x y : List ℕ)
        → FromWords words (Some files) calls (Ruled v x) → FromWords words (Some files) calls (Ruled w y)
        → may_end_early v ≡ true → is_fault v ≡ false → x ≡ y }
{}

/// Where a `run` over files that tell their bytes ended with the status 0 or 1, there are one history and what is told
/// of the jobs, lawful over the network, the scripts and the feeds that the files say, whose report is what was
/// written.
pub fn reports_tell_one_history()
    ensures { (words : List (List ℕ)) (files : Files) (calls : List Call) (command : RunWords) (status : Status)
        (old new : Option (List ℕ)) → command_of words ≡ Some (Run command) → exit_number status ≤ 1
        → IsWritten (IsDue words (Some files) calls) (exit_of status) old new
        → (text : List ℕ) × (new ≡ with_end old text) × IsReportOf files command text }
{}
