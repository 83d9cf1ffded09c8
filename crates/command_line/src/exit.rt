//! How the process ends.
ghost use Rattle.std.specs.Prelude.{◌≡◌};
ghost use Rattle.std.specs.Process.{exit_status};
ghost use Rattle.enum_top.specs.Endings.{code_of};

use enum_top::Status;
use std::process::ExitCode;

/// The exit status of a run: 0 to 6.
pub(crate) fn exit_code(status: Status) -> ExitCode
    ensures { exit_status result ≡ code_of status }
{
    ExitCode::from(status.code())
}
