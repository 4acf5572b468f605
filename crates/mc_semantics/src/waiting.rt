//! How far a run is: each configuration of a well typed program makes a step, has ended, or waits for a choice.

mod laws;

pub use laws::{
    flows_come_to_one_end, flows_step_end_or_wait, programs_come_to_one_end,
    programs_step_end_or_wait,
};
