// The faults of a run, each inside the one above it: unit, neuron, network.
use cordic::UnitFault;

// The input, from 0, if the fault arose in a product, and the unit's fault. Steps are those accepted before it in this neuron.
#[derive(Clone, Copy, PartialEq, Eq, Debug)]
pub struct NeuronFault {
    pub input: Option<u32>,
    pub unit: UnitFault,
    pub steps: u32,
}

// Layer and neuron, from 0, of a neuron's fault.
#[derive(Clone, Copy, PartialEq, Eq, Debug)]
pub struct Located {
    pub layer: u32,
    pub neuron: u32,
    pub inner: NeuronFault,
}

#[derive(Clone, Copy, PartialEq, Eq, Debug)]
pub enum NetworkFault {
    // the sample at this position yields nothing
    NoSample { position: u32 },
    // the sample count is not the inputs of the first layer
    SampleCount,
    // the plan is empty, not in whole records, or too long
    PlanLength,
    // the record at this position breaks the table or the order, or is missing
    PlanRecord { position: u32 },
    // an angle is out of reach, or a register would leave the word
    Arithmetic(Located),
    // fewer places than neurons in the last layer
    Places,
}

// All that a fault says, by its number. Positions are counted from 0. The numbers are fixed for those outside; inside, the fault is the enum above.
#[derive(Clone, Copy, PartialEq, Eq, Debug)]
pub struct Report {
    pub number: u8,
    pub layer: Option<u32>,
    pub neuron: Option<u32>,
    pub input: Option<u32>,
    pub record: Option<u32>,
    pub inner: Option<NeuronFault>,
}
