//! Callers with promises of their own.

use crate::asking::{MAIN, abort, assert_accepted};
use ada_events::{Refusal, Request, TaskNo};
use ada_example::{give_up, journal_of, sleep_until, stop};
use ada_kernel::Kernel;
use ada_lasting::{LongKernel, NotDone};
use ada_replay::{Ending, RunFault};
use ada_test_requests::{MAIN as MAIN_BODY, SINGLE, create};
use std::process::Abort;
use std::test::Fail;

const MAIN_TASK: TaskNo = TaskNo(0);

const SERVER: TaskNo = TaskNo(1);

fn assert_stop<R: Abort>(rt: &R, kernel: &mut Kernel, wanted: Result<(), Refusal>) {
    assert_eq!(rt; stop(kernel, MAIN_TASK, SERVER), wanted);
}

fn assert_server<R: Abort>(rt: &R, kernel: &Kernel, callable: bool, terminated: bool) {
    assert_eq!(rt; kernel.callable(SERVER), Some(callable));
    assert_eq!(rt; kernel.terminated(SERVER), Some(terminated));
}

// A server that isn't there can't be stopped; one that is there is stopped.
fn the_server_stops<R: Abort>(rt: &R, kernel: &mut Kernel) {
    assert_stop(rt, kernel, Err(Refusal::UnknownTask));
    assert_eq!(rt; kernel.step(create(0, MAIN_BODY, &[SINGLE])), Ok(1));
    assert_server(rt, kernel, true, false);
    assert_stop(rt, kernel, Ok(()));
    assert_server(rt, kernel, false, true);
}

#[test]
fn stops_a_server(rt: HostRuntime) -> Result<(), Fail> {
    let mut kernel = Kernel::new(rt.alloc())?;
    the_server_stops(&rt, &mut kernel);
    Ok(())
}

fn assert_given_up<R: Abort>(rt: &R, kernel: &mut LongKernel, wanted: Result<bool, NotDone>) {
    assert_eq!(rt; give_up(kernel, 1), wanted);
}

// The name of a task that lives is kept, that of a terminated one is given up, and only once.
fn a_name_is_given_up<R: Abort>(rt: &R, kernel: &mut LongKernel) {
    assert_accepted(
        rt,
        kernel,
        crate::asking::create(MAIN, crate::asking::MAIN_BODY),
        1,
    );
    assert_given_up(rt, kernel, Ok(false));
    assert_accepted(rt, kernel, abort(MAIN, 1), 2);
    assert_given_up(rt, kernel, Ok(true));
    assert_given_up(rt, kernel, Ok(false));
    assert_eq!(rt; kernel.terminated(1), None);
}

#[test]
fn gives_up_what_is_gone(rt: HostRuntime) -> Result<(), Fail> {
    let mut kernel = LongKernel::new(rt.alloc(), 4096)?;
    a_name_is_given_up(&rt, &mut kernel);
    Ok(())
}

// Nobody sleeps while main runs; once it pauses for 30 milliseconds, the host may sleep for as long.
fn the_host_sleeps<R: Abort>(rt: &R, kernel: &mut Kernel) {
    assert_eq!(rt; sleep_until(kernel), None);
    let pause = Request::Delay {
        by: MAIN_TASK,
        duration: 30,
    };
    assert_eq!(rt; kernel.step(pause), Ok(1));
    assert_eq!(rt; sleep_until(kernel), Some(30));
}

#[test]
fn sleeps_until_a_delay_is_over(rt: HostRuntime) -> Result<(), Fail> {
    let mut kernel = Kernel::new(rt.alloc())?;
    the_host_sleeps(&rt, &mut kernel);
    Ok(())
}

fn assert_played<R: Abort>(rt: &R, played: &Result<(Vec<u8>, Ending), RunFault>) {
    let text = b"1 main completed\n2 gone main\n";
    assert!(rt;
        matches!(played, Ok((journal, Ending::Finished)) if journal.as_slice() == text.as_slice())
    );
}

#[test]
fn plays_a_script_in_memory(rt: HostRuntime) {
    assert_played(&rt, &journal_of(rt.alloc(), b"main: complete\n"));
}
