//! `status`: runs what the command line asks for, with words for front ends where it has `--desk`.

ghost use Rattle.std.specs.Prelude.{◌≤◌};
ghost use Rattle.std.specs.Process.{exit_status};

use crate::runner::run_desk;
use nd_commands::{CountedRead, CountedWrite, RunFault, Scripting, run, status_by};
use nd_notebook::{Meter, Notebook};
use std::process::ExitCode;

/// The commands of `run`, or those of [`run_desk`].
struct Desk;

impl Scripting for Desk {
    fn has_desk() -> bool {
        true
    }

    fn run_script<R: CountedRead, W: CountedWrite>(
        rt: &HostRuntime,
        is_desk: bool,
        reader: &mut R,
        writer: &mut W,
        meter: &mut Meter,
        notebook: &mut Notebook,
    ) -> Result<(), RunFault> {
        if is_desk {
            run_desk(rt, reader, writer, meter, notebook)
        } else {
            run(rt.alloc(), reader, writer, meter, notebook)
        }
    }
}

/// Runs the program with the words of its command line, and gives its exit status.
pub fn status(rt: &HostRuntime) -> ExitCode
    ensures { exit_status result ≤ 3 }
{
    status_by::<Desk>(rt)
}
