// How large the parts of a proposal may be, and its table is.
use zone::Zone;

// A table's full size.
pub const SIZE: usize = 47023;

// The longest text.
pub const TEXT_MOST: usize = 65535;

// How many zones there may be.
pub const ZONES_MOST: u32 = 48;

// How many cells the head of a zone has: its location, the tasks of its queue, and the end of its claims.
pub const HEAD: usize = 8;

// How many cells the bounds of a zone have: one for each variable i and each variable j.
pub const BOUNDS: usize = Zone::VARIABLES * Zone::VARIABLES;

// The largest c of a bound. It is added to c, so that a number is kept that is not below 0.
pub const BOUND_MOST: u32 = Zone::MOST as u32;
