//! How large the numbers of a service's settings may be, beside what the parts themselves take, and what they are where no
//! line says them (`docs/FORMATS.md`, "Settings of a service").

/// The most places of an outbox, and the most entries of each table of a node and of a hub.
pub const MOST_PLACES: u64 = 65_536;

/// The fewest bytes of records that a hub may hold: those of the longest page and more.
pub const LEAST_BYTES: u64 = 65_536;

/// The most bytes of records that a hub may hold.
pub const MOST_BYTES: u64 = 1_099_511_627_776;

/// Clients of a node where no line says how many.
pub const DEFAULT_CLIENTS: u64 = 64;

/// Buffers of a node where no line says how many: 64 MiB of them, where they have the default size.
pub const DEFAULT_BUFFERS: u64 = 16_384;

/// The size of a page where no line says it. Its buffer has 4,096 bytes.
pub const DEFAULT_SIZE: u64 = 4_088;

/// Places of an outbox where no line says how many: what a pass takes of a client.
pub const DEFAULT_BACKLOG: u64 = 64;

/// Claims that a node keeps where no line says how many.
pub const DEFAULT_CLAIMS: u64 = 4_096;

/// Traces that a node remembers where no line says how many: more than buffers and clients together.
pub const DEFAULT_REMEMBER: u64 = 32_768;

/// Settled groups that a hub keeps where no line says how many.
pub const DEFAULT_GROUPS: u64 = 16_384;

/// Traces that a hub holds where no line says how many.
pub const DEFAULT_HOLD: u64 = 4_096;

/// Bytes of records that a hub holds where no line says how many: 256 MiB.
pub const DEFAULT_BYTES: u64 = 268_435_456;
