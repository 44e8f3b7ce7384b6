// The kinds of stage on steps worked by hand.
use super::bits::BitSerial;
use super::parallel::Parallel;
use super::probe::Probe;
use super::recorder::Recorder;
use super::registers::Triple;
use super::shift::Shift;
use super::stage::Stage;
use super::step::{Direction, Step, System};
use std::test::Fail;

fn step(system: System, direction: Direction, amount: u32, entry: i32) -> Result<Step, Fail> {
    let Some(shift) = Shift::new(amount) else {
        return Err(Fail::new("no such shift"));
    };
    Ok(Step {
        system,
        direction,
        shift,
        entry,
    })
}

// Circular, d = +1, shift 5, from (−1, −40, 7) with e = 3: floor(−40/32) = −2 and floor(−1/32) = −1, so x = −1 + 2 = 1,
// y = −40 − 1 = −41 and z = 7 − 3 = 4.
#[test]
fn shifts_below_zero(rt: HostRuntime) -> Result<(), Fail> {
    let s = step(System::Circular, Direction::Plus, 5, 3)?;
    let before = Triple {
        x: -1,
        y: -40,
        z: 7,
    };
    let after = Triple { x: 1, y: -41, z: 4 };
    let mut serial = BitSerial::new();
    serial.load(before);
    assert!(rt; serial.step(s).is_ok());
    assert_eq!(rt; serial.read(), after);
    let mut parallel = Parallel::new();
    parallel.load(before);
    assert!(rt; parallel.step(s).is_ok());
    assert_eq!(rt; parallel.read(), after);
    Ok(())
}

// Linear, d = +1, shift 0, from (−2^31, −1, 0): y would be −1 − 2^31, one below the word.
#[test]
fn refuses_below_the_word(rt: HostRuntime) -> Result<(), Fail> {
    let s = step(System::Linear, Direction::Plus, 0, 0)?;
    let before = Triple {
        x: -2147483648,
        y: -1,
        z: 0,
    };
    let mut stage = BitSerial::new();
    stage.load(before);
    assert!(rt; stage.step(s).is_err());
    assert_eq!(rt; stage.read(), before);
    Ok(())
}

// A step under a recorder takes the ticks of the stage below.
#[test]
fn records_with_the_ticks_below(rt: HostRuntime) -> Result<(), Fail> {
    assert_eq!(rt; <Recorder<BitSerial> as Stage>::TICKS, 32);
    assert_eq!(rt; <Recorder<Parallel> as Stage>::TICKS, 1);
    Ok(())
}

// Linear, d = +1, shift 0, from (2^30, 0, 0): y goes to 2^30, and the next step, to 2^31, is refused. A step takes the 32
// ticks of the stage below.
#[test]
fn counts_accepted_steps(rt: HostRuntime) -> Result<(), Fail> {
    let s = step(System::Linear, Direction::Plus, 0, 0)?;
    let before = Triple {
        x: 1073741824,
        y: 0,
        z: 0,
    };
    assert_eq!(rt; <Probe<BitSerial> as Stage>::TICKS, 32);
    let mut probe = Probe::new(BitSerial::new());
    probe.load(before);
    assert!(rt; probe.step(s).is_ok());
    assert!(rt; probe.step(s).is_err());
    assert_eq!(rt; probe.accepted(), 1);
    assert!(rt; probe.before_latest() == Some(before));
    Ok(())
}

// One step before the load and one after it: the load clears both probes, so each has counted 1.
#[test]
fn probes_a_probe(rt: HostRuntime) -> Result<(), Fail> {
    let s = step(System::Hyperbolic, Direction::Minus, 1, 0)?;
    let mut probe = Probe::new(Probe::new(Parallel::new()));
    assert!(rt; probe.step(s).is_ok());
    probe.load(Triple { x: 8, y: 4, z: 0 });
    assert!(rt; probe.step(s).is_ok());
    assert_eq!(rt; probe.accepted(), 1);
    assert_eq!(rt; probe.into_inner().accepted(), 1);
    Ok(())
}
