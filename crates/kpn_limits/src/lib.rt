//! The limits of descriptions, networks, inputs and the options of a command line, each with its one name. Code and
//! definitions of all other crates cite them.
#![tactic(auto)]

/// The most variables that a process may have, parameters included.
pub const MAX_VARIABLES: usize = 64;

/// The most cells that a process may have: those of its arrays and of its tables.
pub const MAX_CELLS: usize = 65_536;

/// The most in ports that a process may have, and the most out ports.
pub const MAX_PORTS: usize = 16;

/// The most levels to which blocks may nest (the body is the first), and expressions (a number or a name is the first).
pub const MAX_LEVELS: usize = 32;

/// The most nodes that a program may have: each statement is one, and each node of an expression.
pub const MAX_NODES: usize = 4_096;

/// The most programs that a network may have, and the most processes, which are instances of them, of language 1.
pub const MAX_PROCESSES: usize = 256;

/// The most channels that a network of language 1 may have.
pub const MAX_CHANNELS: usize = 1_024;

/// The most processes that a network of language 2 may have.
pub const MAX_LARGE_PROCESSES: usize = 4_096;

/// The most channels that a network of language 2 may have.
pub const MAX_LARGE_CHANNELS: usize = 16_384;

/// The greatest capacity that a channel may have, and the greatest limit that a network may set on its capacities.
pub const MAX_CAPACITY: u32 = 1_048_576;

/// The most bytes of a name in a description.
pub const MAX_NAME_BYTES: usize = 32;

/// The most bytes of a description.
pub const MAX_TEXT_BYTES: usize = 1_048_576;

/// The most bytes of a file or an input that the program reads.
pub const MAX_INPUT_BYTES: usize = 268_435_456;

/// The most digits of a number or an item, leading zeros included: 2^63 has nineteen, and a number of nineteen digits
/// is below 2^64.
pub const MAX_DIGITS: usize = 19;

/// The most threads that a run uses.
pub const MAX_WORKERS: usize = 16;

/// The most rounds of Kahn's iteration that a user may ask for.
pub const MAX_ROUNDS: u32 = 1_000;

/// The most items of each sink, commits of a run, or steps before an event that a user may ask for.
pub const MAX_COUNT: u64 = 1_000_000_000;

/// The most commits of a run, and the most steps before an event, if the user asks for nothing else.
pub const USUAL_COUNT: u64 = 10_000_000;
