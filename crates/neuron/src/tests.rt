// The printout on plans and inputs worked by hand: what the one run of the gate does not show.
use super::printout::printout;
use std::alloc::Global;
use std::process::Abort;
use std::test::Fail;

// One neuron with one input, identity, bias 0, weight 0.5.
const HALF: [u8; 24] = [
    1, 0, 0, 1, 0, 0, 0, 1, 2, 0, 0, 0, 0, 0, 0, 0, 3, 0, 0, 0, 8, 0, 0, 0,
];

// The sample 1.0.
const ONE: [u8; 8] = [4, 0, 0, 0, 16, 0, 0, 0];

fn prints(
    rt: &impl Abort,
    heap: Global,
    plan: &[u8],
    input: &[u8],
    text: &str,
) -> Result<(), Fail> {
    let shown = printout(heap, plan, input)?;
    assert!(rt; shown.as_str() == text, "{}", text);
    Ok(())
}

// 1.0 × 0.5 is one unit above 2^27, and takes 28 steps.
#[test]
fn prints_outputs(rt: HostRuntime) -> Result<(), Fail> {
    prints(
        &rt,
        rt.alloc(),
        &HALF,
        &ONE,
        "out raw steps\n0 134217729 28\n",
    )
}

// A line for each kind of refusal: an empty plan, a bias of neuron 1, no sample, a pinned sample, a sample of kind 3, a weight one unit
// above 1.0, and a bias at the end of the word.
#[test]
fn prints_refusals(rt: HostRuntime) -> Result<(), Fail> {
    let heap = rt.alloc();
    let mut plan = HALF;
    prints(&rt, heap, &[], &ONE, "refused 3 - - - -\n")?;
    plan[11] = 1;
    prints(&rt, heap, &plan, &ONE, "refused 4 - - - p1\n")?;
    prints(&rt, heap, &HALF, &[], "refused 2 - - - -\n")?;
    prints(
        &rt,
        heap,
        &HALF,
        &[4, 2, 0, 0, 16, 0, 0, 0],
        "refused 1 - - 0 -\n",
    )?;
    prints(
        &rt,
        heap,
        &HALF,
        &[3, 0, 0, 0, 16, 0, 0, 0],
        "refused 4 - - - s0\n",
    )?;
    plan = HALF;
    plan[20] = 16;
    plan[23] = 1;
    prints(&rt, heap, &plan, &ONE, "refused 5 0 0 0 -\n")?;
    plan = HALF;
    plan[12] = 127;
    plan[13] = 255;
    prints(&rt, heap, &plan, &ONE, "refused 7 0 0 0 -\n")
}
