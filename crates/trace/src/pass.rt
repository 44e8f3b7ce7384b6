// Runs a request: the unit over a recorder around the chosen stage.
use super::accepted::Accepted;
use super::report::{Mark, print_probe, print_refusal, print_result, print_title, print_triple};
use super::request::Request;
use cordic::{Answer, Idle, Refused, rows_of};
use stage::{BitSerial, Kind, Parallel, Probe, Recorder, Stage, Triple};
use std::io;

// The triples after each accepted step, with what the step was told.
fn print_steps(out: &impl Print, request: &Request, triples: &[Triple]) -> io::Result<()> {
    let mut before = request.start;
    for (i, (row, after)) in rows_of(request.system).iter().zip(triples).enumerate() {
        let step = Accepted {
            number: i + 1,
            shift: row.shift,
            entry: row.entry,
            direction: request.mode.direction(before),
        };
        print_triple(out, Mark::Step(step), *after)?;
        before = *after;
    }
    Ok(())
}

// One pass, printed. The stage comes back as the pass left it.
fn trace<S: Stage + Drop>(out: &impl Print, stage: S, request: &Request) -> io::Result<S> {
    print_title(out, request)?;
    print_triple(out, Mark::Start, request.start)?;
    let unit = Idle::new(Recorder::new(stage));
    let (unit, outcome) = match unit.pass_in(request.system, request.mode, request.start) {
        Ok(Answer { unit, value, steps }) => (unit, Ok((value, steps))),
        Err(
            Refused {
                unit,
                fault,
                steps: _,
            },
        ) => (unit, Err(fault)),
    };
    let recorder = unit.into_stage();
    print_steps(out, request, recorder.triples())?;
    match outcome {
        Ok((end, steps)) => print_result(out, end, steps, S::ticks_in(steps))?,
        Err(fault) => print_refusal(out, fault)?,
    }
    Ok(recorder.into_inner())
}

fn print_on_stage<S: Stage + Drop>(
    out: &impl Print,
    stage: S,
    request: &Request,
) -> io::Result<()> {
    if !request.probe {
        trace(out, stage, request)?;
        return Ok(());
    }
    let probe = trace(out, Probe::new(stage), request)?;
    print_probe(out, probe.accepted(), probe.before_latest())
}

pub(crate) fn print_trace(out: &impl Print, request: Request) -> io::Result<()> {
    // two types of stage, whose meaning stands at the type, which a trait object has not; the stage is moved, the request lent
    match request.kind {
        Kind::Parallel => print_on_stage(out, Parallel::new(), &request),
        Kind::BitSerial => print_on_stage(out, BitSerial::new(), &request),
    }
}
