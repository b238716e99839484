//! The numbers that stand at the head of a workload, each with its least and its greatest value.

ghost use Rattle.std.specs.Prelude.{◌≡◌};
ghost use Rattle.hs_records.specs.Settings.{setting_place, least, most};

use hs_base::limits::{
    MAX_BUFFERS, MAX_CLIENTS, MAX_NODES, MAX_PINS, MAX_SIZE, MAX_STRIDE, MAX_THRESHOLD, MAX_TRACES,
    MIN_SIZE,
};

/// A number of the head, which stands on lines 1 to 9.
#[derive(Clone, Copy)]
pub enum Setting {
    Version,
    Nodes,
    Clients,
    Buffers,
    Size,
    Threshold,
    Traces,
    Pins,
    Stride,
}

impl Setting {
    /// How many settings stand before this one.
    pub fn place(self) -> usize
        ensures { result ≡ setting_place self }
    {
        match self {
            Setting::Version => 0,
            Setting::Nodes => 1,
            Setting::Clients => 2,
            Setting::Buffers => 3,
            Setting::Size => 4,
            Setting::Threshold => 5,
            Setting::Traces => 6,
            Setting::Pins => 7,
            Setting::Stride => 8,
        }
    }

    /// The least value.
    pub fn least(self) -> u32
        ensures { result ≡ least self }
    {
        match self {
            Setting::Size => MIN_SIZE,
            Setting::Threshold | Setting::Pins => 0,
            _ => 1,
        }
    }

    /// The greatest value.
    pub fn most(self) -> u32
        ensures { result ≡ most self }
    {
        match self {
            Setting::Version => 2,
            Setting::Nodes => u32::from(MAX_NODES),
            Setting::Clients => u32::from(MAX_CLIENTS),
            Setting::Buffers => MAX_BUFFERS,
            Setting::Size => MAX_SIZE,
            Setting::Threshold => MAX_THRESHOLD,
            Setting::Traces => MAX_TRACES,
            Setting::Pins => MAX_PINS,
            Setting::Stride => MAX_STRIDE,
        }
    }
}
