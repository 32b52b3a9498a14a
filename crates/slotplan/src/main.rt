//! The slotplan program.
#![tactic(auto)]

use plan_run::run_on_host;
use std::process::ExitCode;

/// Hands the host and its standard streams on.
fn main(rt: HostRuntime) -> ExitCode {
    run_on_host(rt.stdout(), rt.stderr(), rt)
}
