// Runs on every kind of stage, against the numbers of the second implementation in reference/cases.py.
use super::faults::NetworkFault;
use super::ran::Ran;
use super::runs::run;
use super::sample::{ConverterWord, Sample, SampleRecord};
use cordic::Idle;
use stage::{BitSerial, Parallel, Probe, Stage, Triple};
use std::process::Abort;
use std::test::Fail;

// What a run comes to; number 0 where it is accepted.
#[derive(Clone, Copy)]
struct Want<'a> {
    number: u8,
    layer: Option<u32>,
    neuron: Option<u32>,
    input: Option<u32>,
    record: Option<u32>,
    places: &'a [i32],
    steps: u32,
    triple: Triple,
}

fn check_outcome(
    rt: &impl Abort,
    outcome: Result<usize, NetworkFault>,
    want: &Want<'_>,
) -> Result<(), Fail> {
    match outcome {
        Ok(count) => {
            assert_eq!(rt; want.number, 0);
            assert!(rt; count <= want.places.len());
            Ok(())
        }
        Err(fault) => {
            let report = fault.report();
            assert_eq!(rt; report.number, want.number);
            assert!(rt; report.layer == want.layer);
            assert!(rt; report.neuron == want.neuron);
            assert!(rt; report.input == want.input);
            assert!(rt; report.record == want.record);
            Ok(())
        }
    }
}

fn on_places<S: Stage + Drop, P: Sample>(
    rt: &impl Abort,
    unit: Idle<S>,
    per: u64,
    plan: &[u8],
    samples: &[P],
    lent: &mut [i32],
    want: &Want<'_>,
) -> Result<(), Fail> {
    let Ran {
        unit,
        outcome,
        steps,
        ticks,
    } = run(unit, plan, samples, lent);
    let after = unit.into_stage().read();
    check_outcome(rt, outcome, want)?;
    assert_eq!(rt; steps, want.steps);
    assert!(rt; u64::from(steps).checked_mul(per) == Some(ticks));
    assert!(rt; lent.starts_with(want.places));
    assert_eq!(rt; after, want.triple);
    Ok(())
}

// Before the run place i holds 900 + i, and the stage (11, -22, 33).
fn on<S: Stage + Drop, P: Sample>(
    rt: &impl Abort,
    stage: S,
    per: u64,
    plan: &[u8],
    samples: &[P],
    want: &Want<'_>,
) -> Result<(), Fail> {
    let mut stage = stage;
    stage.load(Triple {
        x: 11,
        y: -22,
        z: 33,
    });
    let mut held = [900, 901, 902];
    let lent = want.places.len();
    if lent > 3 {
        return Err(Fail::new("three places at most"));
    }
    on_places(
        rt,
        Idle::new(stage),
        per,
        plan,
        samples,
        &mut held[0..lent],
        want,
    )
}

fn on_each_stage<P: Sample>(
    rt: &impl Abort,
    plan: &[u8],
    samples: &[P],
    want: &Want<'_>,
) -> Result<(), Fail> {
    on(rt, Parallel::new(), 1, plan, samples, want)?;
    on(rt, BitSerial::new(), 32, plan, samples, want)?;
    on(rt, Probe::new(Parallel::new()), 1, plan, samples, want)?;
    on(rt, Probe::new(BitSerial::new()), 32, plan, samples, want)
}

// One neuron, identity.
#[test]
fn one_product(rt: HostRuntime) -> Result<(), Fail> {
    let plan = b"\x01\x00\x00\x01\x00\x00\x00\x01\
        \x02\x00\x00\x00\x00\x00\x00\x00\
        \x03\x00\x00\x00\x08\x00\x00\x00";
    let samples = [SampleRecord {
        status: 0,
        value: 268435456,
    }];
    let places: [i32; 2] = [134217729, 901];
    let want = Want {
        number: 0,
        layer: None,
        neuron: None,
        input: None,
        record: None,
        places: &places,
        steps: 28,
        triple: Triple {
            x: 268435456,
            y: 134217729,
            z: -1,
        },
    };
    on_each_stage(&rt, plan, &samples, &want)
}

// Two layers: 2 by 2 tanh, then 1 identity, negative weights.
#[test]
fn two_layers(rt: HostRuntime) -> Result<(), Fail> {
    let plan = b"\x01\x01\x00\x02\x00\x00\x00\x02\
        \x02\x00\x00\x00\x01\x00\x00\x00\
        \x03\x00\x00\x00\xfa\x00\x00\x00\
        \x03\x00\x00\x01\x03\x00\x00\x00\
        \x02\x00\x00\x01\xfe\x00\x00\x00\
        \x03\x00\x00\x00\x05\x00\x00\x00\
        \x03\x00\x00\x01\xf8\xff\xff\xff\
        \x01\x00\x00\x01\x00\x00\x00\x02\
        \x02\x00\x00\x00\xff\x80\x00\x00\
        \x03\x00\x00\x00\xf4\x00\x00\x00\
        \x03\x00\x00\x01\xfb\xff\xff\xfd";
    let samples = [
        SampleRecord {
            status: 0,
            value: 167772160,
        },
        SampleRecord {
            status: 0,
            value: -150994949,
        },
    ];
    let places: [i32; 2] = [25506778, 901];
    let want = Want {
        number: 0,
        layer: None,
        neuron: None,
        input: None,
        record: None,
        places: &places,
        steps: 284,
        triple: Triple {
            x: 82209375,
            y: 25506778,
            z: 0,
        },
    };
    on_each_stage(&rt, plan, &samples, &want)
}

// Four layers of one tanh neuron.
#[test]
fn four_layers(rt: HostRuntime) -> Result<(), Fail> {
    let plan = b"\x01\x01\x00\x01\x00\x00\x00\x01\
        \x02\x00\x00\x00\x00\x00\x00\x00\
        \x03\x00\x00\x00\x10\x00\x00\x00\
        \x01\x01\x00\x01\x00\x00\x00\x01\
        \x02\x00\x00\x00\x00\x10\x00\x00\
        \x03\x00\x00\x00\x0f\xff\xff\xff\
        \x01\x01\x00\x01\x00\x00\x00\x01\
        \x02\x00\x00\x00\xff\xe0\x00\x00\
        \x03\x00\x00\x00\xf0\x00\x00\x00\
        \x01\x01\x00\x01\x00\x00\x00\x01\
        \x02\x00\x00\x00\x00\x00\x00\x07\
        \x03\x00\x00\x00\x0c\x00\x00\x00";
    let samples = [SampleRecord {
        status: 0,
        value: 234881024,
    }];
    let places: [i32; 2] = [-104698285, 901];
    let want = Want {
        number: 0,
        layer: None,
        neuron: None,
        input: None,
        record: None,
        places: &places,
        steps: 344,
        triple: Triple {
            x: 241428071,
            y: 0,
            z: -104698285,
        },
    };
    on_each_stage(&rt, plan, &samples, &want)
}

// Converter words 100 and -200.
#[test]
fn converter_words(rt: HostRuntime) -> Result<(), Fail> {
    let plan = b"\x01\x00\x00\x01\x00\x00\x00\x02\
        \x02\x00\x00\x00\x00\x00\x00\x00\
        \x03\x00\x00\x00\x08\x00\x00\x00\
        \x03\x00\x00\x01\x04\x00\x00\x00";
    let samples = [ConverterWord { raw: 100 }, ConverterWord { raw: -200 }];
    let places: [i32; 2] = [12, 901];
    let want = Want {
        number: 0,
        layer: None,
        neuron: None,
        input: None,
        record: None,
        places: &places,
        steps: 56,
        triple: Triple {
            x: -1638400,
            y: 12,
            z: -1,
        },
    };
    on_each_stage(&rt, plan, &samples, &want)
}

// Net at the greatest reachable angle.
#[test]
fn greatest_angle(rt: HostRuntime) -> Result<(), Fail> {
    let plan = b"\x01\x01\x00\x01\x00\x00\x00\x01\
        \x02\x00\x00\x00\x11\xe4\x09\x64\
        \x03\x00\x00\x00\x00\x00\x00\x00";
    let samples = [SampleRecord {
        status: 0,
        value: 0,
    }];
    let places: [i32; 2] = [216609285, 901];
    let want = Want {
        number: 0,
        layer: None,
        neuron: None,
        input: None,
        record: None,
        places: &places,
        steps: 86,
        triple: Triple {
            x: 376381461,
            y: 0,
            z: 216609285,
        },
    };
    on_each_stage(&rt, plan, &samples, &want)
}

// Net at the least reachable angle.
#[test]
fn least_angle(rt: HostRuntime) -> Result<(), Fail> {
    let plan = b"\x01\x01\x00\x01\x00\x00\x00\x01\
        \x02\x00\x00\x00\xee\x1b\xf6\x9c\
        \x03\x00\x00\x00\x00\x00\x00\x00";
    let samples = [SampleRecord {
        status: 0,
        value: 0,
    }];
    let places: [i32; 2] = [-216609273, 901];
    let want = Want {
        number: 0,
        layer: None,
        neuron: None,
        input: None,
        record: None,
        places: &places,
        steps: 86,
        triple: Triple {
            x: 376381484,
            y: -1,
            z: -216609273,
        },
    };
    on_each_stage(&rt, plan, &samples, &want)
}

// Converter words 100 and 32767 (pinned).
#[test]
fn high_pinned(rt: HostRuntime) -> Result<(), Fail> {
    let plan = b"\x01\x00\x00\x01\x00\x00\x00\x02\
        \x02\x00\x00\x00\x00\x00\x00\x00\
        \x03\x00\x00\x00\x08\x00\x00\x00\
        \x03\x00\x00\x01\x04\x00\x00\x00";
    let samples = [ConverterWord { raw: 100 }, ConverterWord { raw: 32767 }];
    let places: [i32; 2] = [900, 901];
    let want = Want {
        number: 1,
        layer: None,
        neuron: None,
        input: Some(1),
        record: None,
        places: &places,
        steps: 0,
        triple: Triple {
            x: 11,
            y: -22,
            z: 33,
        },
    };
    on_each_stage(&rt, plan, &samples, &want)
}

// Converter words -32768 and 32767 (both pinned).
#[test]
fn low_pinned(rt: HostRuntime) -> Result<(), Fail> {
    let plan = b"\x01\x00\x00\x01\x00\x00\x00\x02\
        \x02\x00\x00\x00\x00\x00\x00\x00\
        \x03\x00\x00\x00\x08\x00\x00\x00\
        \x03\x00\x00\x01\x04\x00\x00\x00";
    let samples = [ConverterWord { raw: -32768 }, ConverterWord { raw: 32767 }];
    let places: [i32; 2] = [900, 901];
    let want = Want {
        number: 1,
        layer: None,
        neuron: None,
        input: Some(0),
        record: None,
        places: &places,
        steps: 0,
        triple: Triple {
            x: 11,
            y: -22,
            z: 33,
        },
    };
    on_each_stage(&rt, plan, &samples, &want)
}

// 7 in the last step of the last product of the last neuron.
#[test]
fn overflow_in_the_last_step(rt: HostRuntime) -> Result<(), Fail> {
    let plan = b"\x01\x00\x00\x02\x00\x00\x00\x02\
        \x02\x00\x00\x00\x00\x00\x00\x00\
        \x03\x00\x00\x00\x00\x00\x00\x05\
        \x03\x00\x00\x01\x00\x00\x00\x06\
        \x02\x00\x00\x01\x10\x00\x00\x00\
        \x03\x00\x00\x00\x00\x00\x00\x07\
        \x03\x00\x00\x01\x00\x00\x00\x08\
        \x01\x00\x00\x02\x00\x00\x00\x02\
        \x02\x00\x00\x00\x00\x00\x00\x01\
        \x03\x00\x00\x00\x00\x00\x00\x09\
        \x03\x00\x00\x01\x00\x00\x00\x09\
        \x02\x00\x00\x01\x70\x00\x00\x01\
        \x03\x00\x00\x00\x00\x00\x00\x00\
        \x03\x00\x00\x01\x10\x00\x00\x00";
    let samples = [
        SampleRecord {
            status: 0,
            value: 0,
        },
        SampleRecord {
            status: 0,
            value: 0,
        },
    ];
    let places: [i32; 3] = [900, 901, 902];
    let want = Want {
        number: 7,
        layer: Some(1),
        neuron: Some(1),
        input: Some(1),
        record: None,
        places: &places,
        steps: 223,
        triple: Triple {
            x: 268435456,
            y: 2147483647,
            z: 2,
        },
    };
    on_each_stage(&rt, plan, &samples, &want)
}

// Weight out of reach in layer 1, neuron 1.
#[test]
fn weight_out_of_reach_later(rt: HostRuntime) -> Result<(), Fail> {
    let plan = b"\x01\x01\x00\x01\x00\x00\x00\x01\
        \x02\x00\x00\x00\x00\x00\x00\x00\
        \x03\x00\x00\x00\x08\x00\x00\x00\
        \x01\x00\x00\x02\x00\x00\x00\x01\
        \x02\x00\x00\x00\x00\x00\x00\x00\
        \x03\x00\x00\x00\x10\x00\x00\x00\
        \x02\x00\x00\x01\x00\x00\x00\x00\
        \x03\x00\x00\x00\x10\x00\x00\x01";
    let samples = [SampleRecord {
        status: 0,
        value: 134217728,
    }];
    let places: [i32; 2] = [900, 901];
    let want = Want {
        number: 5,
        layer: Some(1),
        neuron: Some(1),
        input: Some(0),
        record: None,
        places: &places,
        steps: 114,
        triple: Triple {
            x: 65744863,
            y: 65744843,
            z: 1,
        },
    };
    on_each_stage(&rt, plan, &samples, &want)
}

// Net out of reach in neuron 1, after an accepted tanh.
#[test]
fn net_out_of_reach_later(rt: HostRuntime) -> Result<(), Fail> {
    let plan = b"\x01\x01\x00\x02\x00\x00\x00\x01\
        \x02\x00\x00\x00\x00\x00\x00\x00\
        \x03\x00\x00\x00\x08\x00\x00\x00\
        \x02\x00\x00\x01\x20\x00\x00\x00\
        \x03\x00\x00\x00\x00\x00\x00\x00";
    let samples = [SampleRecord {
        status: 0,
        value: 134217728,
    }];
    let places: [i32; 2] = [900, 901];
    let want = Want {
        number: 5,
        layer: Some(0),
        neuron: Some(1),
        input: None,
        record: None,
        places: &places,
        steps: 114,
        triple: Triple {
            x: 134217728,
            y: 536870913,
            z: -1,
        },
    };
    on_each_stage(&rt, plan, &samples, &want)
}

// Bad plan record and no sample value: 4.
#[test]
fn record_before_sample(rt: HostRuntime) -> Result<(), Fail> {
    let plan = b"\x01\x00\x00\x01\x00\x00\x00\x01\
        \x02\x00\x00\x01\x00\x00\x00\x00\
        \x03\x00\x00\x00\x00\x00\x00\x00";
    let samples = [SampleRecord {
        status: 2,
        value: 0,
    }];
    let places: [i32; 2] = [900, 901];
    let want = Want {
        number: 4,
        layer: None,
        neuron: None,
        input: None,
        record: Some(1),
        places: &places,
        steps: 0,
        triple: Triple {
            x: 11,
            y: -22,
            z: 33,
        },
    };
    on_each_stage(&rt, plan, &samples, &want)
}

// Too few places and wrong sample count: 8.
#[test]
fn places_before_count(rt: HostRuntime) -> Result<(), Fail> {
    let plan = b"\x01\x00\x00\x01\x00\x00\x00\x01\
        \x02\x00\x00\x00\x00\x00\x00\x00\
        \x03\x00\x00\x00\x10\x00\x00\x00";
    let samples = [
        SampleRecord {
            status: 0,
            value: 1,
        },
        SampleRecord {
            status: 0,
            value: 2,
        },
    ];
    let places: [i32; 0] = [];
    let want = Want {
        number: 8,
        layer: None,
        neuron: None,
        input: None,
        record: None,
        places: &places,
        steps: 0,
        triple: Triple {
            x: 11,
            y: -22,
            z: 33,
        },
    };
    on_each_stage(&rt, plan, &samples, &want)
}

// Wrong count and no sample value: 2.
#[test]
fn count_before_sample(rt: HostRuntime) -> Result<(), Fail> {
    let plan = b"\x01\x00\x00\x01\x00\x00\x00\x01\
        \x02\x00\x00\x00\x00\x00\x00\x00\
        \x03\x00\x00\x00\x10\x00\x00\x00";
    let samples = [
        SampleRecord {
            status: 2,
            value: 0,
        },
        SampleRecord {
            status: 2,
            value: 0,
        },
    ];
    let places: [i32; 2] = [900, 901];
    let want = Want {
        number: 2,
        layer: None,
        neuron: None,
        input: None,
        record: None,
        places: &places,
        steps: 0,
        triple: Triple {
            x: 11,
            y: -22,
            z: 33,
        },
    };
    on_each_stage(&rt, plan, &samples, &want)
}

// No sample value and weight out of reach: 1.
#[test]
fn sample_before_weight(rt: HostRuntime) -> Result<(), Fail> {
    let plan = b"\x01\x00\x00\x01\x00\x00\x00\x01\
        \x02\x00\x00\x00\x00\x00\x00\x00\
        \x03\x00\x00\x00\x10\x00\x00\x01";
    let samples = [SampleRecord {
        status: 2,
        value: 0,
    }];
    let places: [i32; 2] = [900, 901];
    let want = Want {
        number: 1,
        layer: None,
        neuron: None,
        input: Some(0),
        record: None,
        places: &places,
        steps: 0,
        triple: Triple {
            x: 11,
            y: -22,
            z: 33,
        },
    };
    on_each_stage(&rt, plan, &samples, &want)
}

// Plan ends early: 4 at the missing record.
#[test]
fn missing_record(rt: HostRuntime) -> Result<(), Fail> {
    let plan = b"\x01\x00\x00\x01\x00\x00\x00\x01\
        \x02\x00\x00\x00\x00\x00\x00\x00";
    let samples = [SampleRecord {
        status: 2,
        value: 0,
    }];
    let places: [i32; 0] = [];
    let want = Want {
        number: 4,
        layer: None,
        neuron: None,
        input: None,
        record: Some(2),
        places: &places,
        steps: 0,
        triple: Triple {
            x: 11,
            y: -22,
            z: 33,
        },
    };
    on_each_stage(&rt, plan, &samples, &want)
}
