// What the one run of the gate does not show: how values are rounded, which word of a request is refused, and lines of values.
use super::accepted::Accepted;
use super::csv::Line;
use super::figures::Fraction;
use super::reader::read_request;
use cordic::{Cause, Mode, UnitFault};
use stage::{Direction, Overflow, Register, System, Triple};
use std::alloc::Global;
use std::process::Abort;
use std::test::Fail;

fn value_is(rt: &impl Abort, heap: Global, raw: i32, text: &str) -> Result<(), Fail> {
    let value = Fraction::of(raw);
    let shown = format!(in heap; "{value}")?;
    assert!(rt; shown.as_str() == text, "{}", text);
    Ok(())
}

// One unit is 0.0000000037.., 2^18 units are 0.0009765625, a tie, and the ends of the word are −8 and 8 less one unit.
#[test]
fn rounds_to_nine_places(rt: HostRuntime) -> Result<(), Fail> {
    let heap = rt.alloc();
    value_is(&rt, heap, 1, " 0.000000004")?;
    value_is(&rt, heap, -1, "-0.000000004")?;
    value_is(&rt, heap, 262144, " 0.000976563")?;
    value_is(&rt, heap, -262144, "-0.000976563")?;
    value_is(&rt, heap, -2147483648, "-8.000000000")?;
    value_is(&rt, heap, 2147483647, " 7.999999996")
}

fn complains(rt: &impl Abort, heap: Global, line: &str, text: &str) -> Result<(), Fail> {
    let words: Vec<String> = line
        .split_whitespace()
        .map(|word| String::from_str(heap, word))
        .try_collect(heap)?;
    match read_request(heap, words.as_slice()) {
        Ok(_) => Err(Fail::new(line)),
        Err(fault) => {
            let shown = format!(in heap; "{fault}")?;
            assert!(rt; shown.as_str() == text, "{}", line);
            Ok(())
        }
    }
}

// The first word from the left that does not fit is named, or else the first that is missing.
#[test]
fn names_the_wrong_word(rt: HostRuntime) -> Result<(), Fail> {
    let heap = rt.alloc();
    complains(
        &rt,
        heap,
        "polar spin",
        "'polar' is no coordinate system (linear, circular, hyperbolic)",
    )?;
    complains(
        &rt,
        heap,
        "linear rotation 1 2147483648 3",
        "'2147483648' is no number for y (-2147483648 to 2147483647)",
    )?;
    complains(
        &rt,
        heap,
        "linear rotation 1 2 3 4",
        "'4' is one word too many (SYSTEM MODE X Y Z)",
    )?;
    complains(
        &rt,
        heap,
        "linear rotation 1 2",
        "no number for z is given (-2147483648 to 2147483647)",
    )?;
    complains(
        &rt,
        heap,
        "linear rotation 1 2 3 --stage",
        "no stage is given (parallel, bit-serial)",
    )
}

fn line_is(rt: &impl Abort, heap: Global, line: Line, text: &str) -> Result<(), Fail> {
    let shown = format!(in heap; "{line}")?;
    assert!(rt; shown.as_str() == text, "{}", text);
    Ok(())
}

fn refused(cause: Cause) -> Line {
    Line::Refused(UnitFault {
        system: System::Linear,
        mode: Mode::Rotation,
        cause,
        steps: 0,
    })
}

// Seven fields a line: of a step all, of an overflow the kept triple, of a load out of reach none but the first.
#[test]
fn writes_lines_of_values(rt: HostRuntime) -> Result<(), Fail> {
    let heap = rt.alloc();
    let t = Triple { x: 1, y: -2, z: 3 };
    let step = Accepted {
        number: 4,
        shift: 5,
        entry: 67,
        direction: Direction::Minus,
    };
    line_is(&rt, heap, Line::Step(step, t), "4,5,67,-1,1,-2,3")?;
    let overflow = Overflow {
        register: Register::Y,
        kept: t,
    };
    let overflowed = Cause::Overflowed { step: 1, overflow };
    line_is(&rt, heap, refused(overflowed), "refused 7,,,,1,-2,3")?;
    line_is(&rt, heap, refused(Cause::Unreachable), "refused 5,,,,,,")
}
