//! What the report prints of jobs.
//!
//! A writer `push_..` adds its text at the end of `out`. After `OutOfMemory`, for which alone it fails, a part of the
//! text may have been added.

ghost use Rattle.std.specs.Prelude.{◌≡◌, ◌++◌, ◌∷◌, [], OnOk, codes, decimal};
ghost use Rattle.std.specs.List.{flat_map};
ghost use Rattle.dn_formats.specs.AnswerText.{told_lines};
ghost use Rattle.dn_formats.specs.Report.{job_lines};
ghost use Rattle.dn_formats.specs.Texts.{line};

use dn_formats::{JobTold, Told, push_bytes, push_labelled};
use dn_model::{OutOfMemory, Topology};
use query_lang::push_told;

/// Adds what is told of all queries and link lines of a job.
fn push_all_told(out: &mut Vec<u8>, t: &Topology, told: &[Told]) -> Result<(), OutOfMemory>
    ensures { OnOk result (out.new.items ≡ out.old.items ++ flat_map (told_lines t.now) told.now) }
{
    for one in told {
        push_told(out, t, one)?;
    }
    Ok(())
}

/// Adds a job's line, and what is told of its queries and link lines.
fn push_job(out: &mut Vec<u8>, t: &Topology, job: &JobTold) -> Result<(), OutOfMemory>
    ensures { OnOk result (out.new.items ≡ out.old.items ++ job_lines t.now job.now) }
{
    push_labelled(out, b"job ", u64::from(job.number))?;
    push_bytes(out, b"\n")?;
    push_all_told(out, t, job.told.as_slice())
}

/// Adds the lines of all jobs.
pub fn push_jobs(out: &mut Vec<u8>, t: &Topology, jobs: &[JobTold]) -> Result<(), OutOfMemory>
    ensures { OnOk result (out.new.items ≡ out.old.items ++ flat_map (job_lines t.now) jobs.now) }
{
    for job in jobs {
        push_job(out, t, job)?;
    }
    Ok(())
}
