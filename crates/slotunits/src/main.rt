//! The slotunits program.
#![tactic(auto)]

use std::process::ExitCode;
use units_run::run_on_host;

/// Hands the host and its standard streams on.
fn main(rt: HostRuntime) -> ExitCode {
    run_on_host(rt.stdin(), rt.stdout(), rt.stderr(), rt)
}
