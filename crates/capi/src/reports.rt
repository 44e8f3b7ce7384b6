// What the calls write for C, which has numbers alone: 0 where the call was accepted, −1 for none, and 0 for a word that is not there.

// What a fault of the unit carries. A step is counted from 1.
#[derive(Clone, Copy)]
#[repr(C)]
pub struct UnitReport {
    pub steps: u32,
    pub system: i32,
    pub mode: i32,
    pub reg: i32,
    pub step: i64,
    pub kept_x: i32,
    pub kept_y: i32,
    pub kept_z: i32,
}

impl UnitReport {
    pub(crate) const NONE: UnitReport = UnitReport {
        steps: 0,
        system: -1,
        mode: -1,
        reg: -1,
        step: -1,
        kept_x: 0,
        kept_y: 0,
        kept_z: 0,
    };
}

#[derive(Clone, Copy)]
#[repr(C)]
pub struct RunReport {
    pub number: u32,
    pub outputs: u32,
    pub steps: u32,
    pub neuron_steps: u32,
    pub ticks: u64,
    pub layer: i64,
    pub neuron: i64,
    pub input: i64,
    pub record: i64,
    pub unit: UnitReport,
}

impl RunReport {
    pub(crate) const BLANK: RunReport = RunReport {
        number: 0,
        outputs: 0,
        steps: 0,
        neuron_steps: 0,
        ticks: 0,
        layer: -1,
        neuron: -1,
        input: -1,
        record: -1,
        unit: UnitReport::NONE,
    };
}

#[derive(Clone, Copy)]
#[repr(C)]
pub struct PassReport {
    pub number: u32,
    pub steps: u32,
    pub x: i32,
    pub y: i32,
    pub z: i32,
    pub unit: UnitReport,
}

impl PassReport {
    pub(crate) const BLANK: PassReport = PassReport {
        number: 0,
        steps: 0,
        x: 0,
        y: 0,
        z: 0,
        unit: UnitReport::NONE,
    };
}

#[derive(Clone, Copy)]
#[repr(C)]
pub struct PlanReport {
    pub number: u32,
    pub inputs: u32,
    pub outputs: u32,
    pub record: i64,
}

impl PlanReport {
    pub(crate) const BLANK: PlanReport = PlanReport {
        number: 0,
        inputs: 0,
        outputs: 0,
        record: -1,
    };
}
