//! How many hypotheses a fleet may have.

/// How many hypotheses all vehicles of a fleet have at most, together.
pub const MAX_FLEET_HYPOTHESES: u32 = 8_192;
