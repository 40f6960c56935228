// The two renumberings of a result: compact (place in the kept list), and the crate's (primaries as they are, secondaries less sd).
// The public calls are `lists::compact`, `lists::crate_numbers` and `bytes::compact_bytes`: none has a `requires`, and each has one `ensures`, an
// equation of its whole outcome. The other functions that have a `requires` serve these calls.
#![tactic(auto)]

pub mod answer;
pub mod bytes;
pub mod checks;
pub mod kept;
pub mod lists;
pub mod write;
