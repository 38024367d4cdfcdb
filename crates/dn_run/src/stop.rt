//! Why a run ends before its jobs.

use crate::parts::PartsRefused;
use crate::routers::RoutersRefused;
use crate::status::Verdict;
use dn_formats::ErrorLine;
use dn_model::OutOfMemory;
use std::alloc::AllocFailed;

/// Why a run ends before its jobs: with a line that tells what is refused or which file failed, or for want of memory.
#[derive(Drop)]
pub enum Stop {
    /// This verdict, with this line.
    Line(Verdict, ErrorLine),
    /// Memory ran out.
    OutOfMemory,
}

impl From<OutOfMemory> for Stop {
    ghost use Rattle.std.specs.Prelude.{◌≡◌};
    ghost use Rattle.dn_run.specs.declared.stop.Stop.TheVariants as variant;

    ghost from_gives = { λ _ e. e ≡ variant.OutOfMemory };

    fn from(_error: OutOfMemory) -> Self {
        Stop::OutOfMemory
    }
}

impl<T: Drop> From<AllocFailed<T>> for Stop {
    ghost use Rattle.std.specs.Prelude.{◌≡◌};
    ghost use Rattle.dn_run.specs.declared.stop.Stop.TheVariants as variant;

    ghost from_gives = { λ _ e. e ≡ variant.OutOfMemory };

    fn from(_error: AllocFailed<T>) -> Self {
        Stop::OutOfMemory
    }
}

impl From<PartsRefused> for Stop {
    ghost use Rattle.std.specs.Prelude.{◌≡◌};
    ghost use Rattle.dn_run.specs.Stops.{stop_of_parts};

    ghost from_gives = { λ refused e. e ≡ stop_of_parts refused };

    fn from(refused: PartsRefused) -> Self {
        match refused {
            PartsRefused::Line(line) => Stop::Line(Verdict::BadWords, line),
            PartsRefused::OutOfMemory => Stop::OutOfMemory,
        }
    }
}

impl From<RoutersRefused> for Stop {
    ghost use Rattle.std.specs.Prelude.{◌≡◌};
    ghost use Rattle.dn_run.specs.Stops.{stop_of_routers};

    ghost from_gives = { λ refused e. e ≡ stop_of_routers refused };

    fn from(refused: RoutersRefused) -> Self {
        match refused {
            RoutersRefused::Line(line) => Stop::Line(Verdict::BadWords, line),
            RoutersRefused::OutOfMemory => Stop::OutOfMemory,
        }
    }
}
