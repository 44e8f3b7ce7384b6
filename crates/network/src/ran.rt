// What a run hands back. (Steps and ticks stand beside each other wherever a run is told, and mean something each for itself.)
use super::faults::NetworkFault;
use cordic::Idle;

// The unit, idle again; the number of outputs, or the fault; the steps accepted, and the ticks that they took.
pub struct Ran<S> {
    pub unit: Idle<S>,
    pub outcome: Result<usize, NetworkFault>,
    pub steps: u32,
    pub ticks: u64,
}
