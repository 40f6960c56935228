// The core: an accepted problem from its lists to the answer, with room that is large enough. It builds the nodes, runs the rounds under the
// cap, writes what is left to the result lists, and leaves the working lists at zero. Its `requires` is that no check refuses what is handed.
#![tactic(auto)]

pub mod reduce;
pub mod report;
pub mod run;
