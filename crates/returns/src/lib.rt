// Return. Its token takes the links of its frame, so that mostly nothing but the frame is out of use after it.
#![tactic(auto)]

mod frame;
pub mod return_value;
