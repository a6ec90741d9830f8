use trace::act::{Act, Step};
use verdict::judge::{Verdict, judge};
use verdict::refusal::JudgeRefusal;

fn step(act: Act) -> Step {
    Step { line: 1, act }
}

fn write(job: u32, item: u32) -> Step {
    step(Act::Write {
        job,
        item,
        value: 0,
    })
}

#[test]
fn no_step_is_a_yes_of_no_job(rt: HostRuntime) {
    let mut numbers = [7];
    assert_eq!(rt; judge(&[], &mut numbers), Ok(Verdict::Yes(0)));
    assert_eq!(rt; numbers[0], 7);
}

#[test]
fn a_last_write_hides_no_conflict(rt: HostRuntime) {
    let steps = [
        step(Act::Open { job: 1 }),
        step(Act::Open { job: 2 }),
        step(Act::Open { job: 3 }),
        step(Act::Read {
            job: 1,
            item: 70,
            value: 0,
        }),
        write(2, 70),
        write(1, 70),
        write(3, 70),
    ];
    let mut numbers = [0, 0, 0, 9];
    assert_eq!(rt; judge(&steps, &mut numbers), Ok(Verdict::No(2)));
    assert_eq!(rt; numbers, [1, 2, 0, 9]);
}

#[test]
fn an_order_goes_by_edges_and_then_by_number(rt: HostRuntime) {
    let steps = [
        step(Act::Open { job: 9 }),
        step(Act::Open { job: 4 }),
        step(Act::Open { job: 2 }),
        step(Act::Open { job: 5 }),
        write(9, 0),
        write(2, 0),
        write(5, 1),
        write(4, 1),
        step(Act::Abort { job: 5 }),
    ];
    let mut numbers = [0; 4];
    assert_eq!(rt; judge(&steps, &mut numbers), Ok(Verdict::Yes(3)));
    assert_eq!(rt; numbers, [4, 9, 2, 0]);
}

fn opens() -> [Step; 65] {
    let mut steps = [step(Act::Retire); 65];
    for (job, place) in (0..65).zip(steps.iter_mut()) {
        *place = step(Act::Open { job });
    }
    steps
}

#[test]
fn a_65th_job_is_refused_and_64_are_judged(rt: HostRuntime) {
    let mut steps = opens();
    let mut numbers = [0; 64];
    assert_eq!(rt; judge(&steps, &mut numbers), Err(JudgeRefusal::TooManyJobs));
    steps[64] = step(Act::Retire);
    assert_eq!(rt; judge(&steps, &mut numbers), Ok(Verdict::Yes(64)));
}
