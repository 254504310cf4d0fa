//! A connection with a limit on the steps of a query: what was reported is stored, and no command is stored in part.

use crate::checked::{Ended, check_zones_left, open_and_run};
use smpe_play::{installed, open_in_memory, open_new_files};
use sqlite::{Alter, Connection};
use std::alloc::Global;
use std::test::Fail;

// Runs the job over the connection with so many steps for each query, and checks what is stored. Returns how it ended.
fn run_with_limit<S: Alter + Drop>(
    alloc: Global,
    conn: Connection<S>,
    steps: u64,
) -> Result<Ended, Fail> {
    let mut conn = installed(alloc, conn)?.close();
    conn.set_step_limit(Some(steps));
    let mut report = Vec::new(alloc);
    let (mut conn, how) = open_and_run(alloc, conn, &mut report)?;
    conn.set_step_limit(None);
    check_zones_left(alloc, conn, report.as_slice(), how)?;
    Ok(how)
}

// Runs the job with so many steps in memory and on disks. The answer is `Well` only if both runs succeed.
fn run_in_memory_and_on_disks(alloc: Global, steps: u64) -> Result<Ended, Fail> {
    let how = run_with_limit(alloc, open_in_memory(alloc)?, steps)?;
    let on_disks = run_with_limit(alloc, open_new_files(alloc)?, steps)?;
    Ok(if how == Ended::Well { on_disks } else { how })
}

#[test]
fn a_limit_of_steps_leaves_no_command_in_part(rt: HostRuntime) -> Result<(), Fail> {
    let mut steps: u64 = 1;
    for _ in 0..24 {
        if run_in_memory_and_on_disks(rt.alloc(), steps)? == Ended::Well {
            return Ok(());
        }
        steps = steps.saturating_mul(2);
    }
    Err(Fail::from("the job does not end with sixteen million steps"))
}
