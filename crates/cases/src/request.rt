// A request: what to run, and what can be wrong with its line.
use cordic::Mode;
use network::{ConverterWord, SampleRecord};
use stage::{System, Triple};
use std::alloc::{AllocError, AllocFailed};
use std::fmt;

#[derive(Drop)]
pub enum Samples {
    Converter(Vec<ConverterWord>),
    Records(Vec<SampleRecord>),
}

// (`trace` has a request of its own, with one kind of stage and a probe or none.)
#[derive(Drop)]
pub enum Request {
    Pass {
        system: System,
        mode: Mode,
        start: Triple,
    },
    Run {
        samples: Samples,
        places: u8,
        plan: Vec<u8>,
    },
}

// What a line should have.
#[derive(Clone, Copy)]
pub enum Wanted {
    Form,
    System,
    Mode,
    Number,
    Places,
    Plan,
    Converter,
    Records,
}

impl fmt::Display for Wanted {
    fn fmt<W: fmt::Write>(&self, f: &mut fmt::Formatter<W>) -> fmt::Result {
        f.write_str(match self {
            Wanted::Form =>
                "request (pass SYSTEM MODE X Y Z, run converter PLACES PLAN .., run records PLACES PLAN ..)",
            Wanted::System => "coordinate system (linear, circular, hyperbolic)",
            Wanted::Mode => "mode (rotation, vectoring)",
            Wanted::Number => "number for a register (-2147483648 to 2147483647)",
            Wanted::Places => "number of places (0 to 64)",
            Wanted::Plan => "plan (two hex digits to a byte, or -)",
            Wanted::Converter => "converter word (-32768 to 32767)",
            Wanted::Records => "sample record (a status, 0 to 255, and a value)",
        })
    }
}

// What is wrong with a line, or that memory ran out. (The kit's derive of `From` is no plainer: it asks for a message and a `Debug` of each variant.)
#[derive(Clone, Copy)]
pub enum RequestFault {
    No(Wanted),
    Memory,
}

impl From<Wanted> for RequestFault {
    fn from(wanted: Wanted) -> RequestFault {
        RequestFault::No(wanted)
    }
}

impl From<AllocError> for RequestFault {
    fn from(_e: AllocError) -> RequestFault {
        RequestFault::Memory
    }
}

impl<T: Drop> From<AllocFailed<T>> for RequestFault {
    fn from(_e: AllocFailed<T>) -> RequestFault {
        RequestFault::Memory
    }
}

impl fmt::Display for RequestFault {
    fn fmt<W: fmt::Write>(&self, f: &mut fmt::Formatter<W>) -> fmt::Result {
        match self {
            RequestFault::No(wanted) => write!(f, "no {wanted}"),
            RequestFault::Memory => write!(f, "no memory is left"),
        }
    }
}
