//! How large a workload may be, what the parts themselves take, and how many bytes a page and its pieces take. Clauses name
//! these numbers as the code does (`docs/RULES.md`, "Limits").

/// The most nodes. There is at least one.
pub const MAX_NODES: u16 = 16;

/// The most clients of a node. There is at least one.
pub const MAX_CLIENTS: u16 = 16;

/// The most buffers of a node's pool. There is at least one.
pub const MAX_BUFFERS: u32 = 1024;

/// The least size of a page, in bytes.
pub const MIN_SIZE: u32 = 64;

/// The greatest size of a page, in bytes.
pub const MAX_SIZE: u32 = 32_768;

/// The greatest number of indexed chunks at which none goes.
pub const MAX_THRESHOLD: u32 = 1024;

/// The greatest number of indexed traces at which none goes. The setting is at least 1.
pub const MAX_TRACES: u32 = 65_536;

/// The greatest number of pinned chunks at which none is abandoned.
pub const MAX_PINS: u32 = 1024;

/// The most operations of a client in a round. There is at least one.
pub const MAX_STRIDE: u32 = 64;

/// The greatest trigger id. The least is 1.
pub const MAX_TRIGGER: u8 = 64;

/// The greatest weight of a trigger id. The least is 1.
pub const MAX_WEIGHT: u32 = 100;

/// The greatest burst of a trigger id, in tokens. The least is 1.
pub const MAX_BURST: u32 = 1000;

/// The greatest rate of a trigger id, in tokens a second.
pub const MAX_RATE: u32 = 1_000_000;

/// The most autotriggers.
pub const MAX_AUTOS: usize = 16;

/// The shortest window of an autotrigger, in samples.
pub const MIN_WINDOW: u32 = 2;

/// The longest window of an autotrigger, in samples.
pub const MAX_WINDOW: u32 = 1024;

/// The share of a whole window, in hundredths of a percent. An autotrigger's is at least 1 and less than this.
pub const WHOLE_SHARE: u32 = 10_000;

/// The most laterals of a trigger.
pub const MAX_LATERALS: usize = 32;

/// The longest payload of a record, in bytes.
pub const MAX_PAYLOAD: usize = 65_535;

/// The most operations of a workload, where a record counts once for each of its pieces.
pub const MAX_OPERATIONS: u32 = 262_144;

/// The most nodes of a set, of a coordinator and of an agent.
pub const MOST_NODES: u16 = 128;

/// The most clients of an agent's port.
pub const MOST_CLIENTS: u16 = 256;

/// The most buffers of a pool.
pub const MOST_BUFFERS: u32 = 65_536;

/// The most draws of a pool between threads in its whole life: 2^40, less 1.
pub const MOST_DRAWS: u64 = 1_099_511_627_775;

/// The most draws that the drawers of a pool may make before they look at its counts again: 2^23, less 1.
pub const MOST_AHEAD: u32 = 8_388_607;

/// The most requests of a made workload. There is at least one.
pub const MAX_REQUESTS: u32 = 10_000;

/// The longest input, in bytes.
pub const MAX_INPUT: usize = 16_777_216;

/// The most items of one queue that are taken in one pass.
pub const MAX_TAKEN: u32 = 64;

/// A token, in the parts that a rate of one token a second gives in a microsecond.
pub const TOKEN: u64 = 1_000_000;

/// The header of a page, in bytes.
pub const HEADER_BYTES: usize = 32;

/// The bytes of a header that the size of a page leaves out. A buffer has as many more than the size.
pub const UNCOUNTED_BYTES: usize = 8;

/// What a header takes of the size of a page, in bytes.
pub const HEADER_COST: usize = 24;

/// What a piece takes of the size of a page beside its payload, in bytes.
pub const PIECE_COST: usize = 10;

/// What a page's header and one piece take of its size beside the piece's payload, in bytes.
pub const FRAME_COST: usize = 34;
