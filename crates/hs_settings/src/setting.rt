//! The numbers among a service's settings, each with its range and its default.

ghost use Rattle.std.specs.Prelude.{◌≡◌};
ghost use Rattle.hs_settings.specs.Settings.{place_of, least_of, most_of, default_of};

use crate::limits::{
    DEFAULT_BACKLOG, DEFAULT_BUFFERS, DEFAULT_BYTES, DEFAULT_CLAIMS, DEFAULT_CLIENTS,
    DEFAULT_GROUPS, DEFAULT_HOLD, DEFAULT_REMEMBER, DEFAULT_SIZE, LEAST_BYTES, MOST_BYTES,
    MOST_PLACES,
};
use hs_base::limits::{MAX_SIZE, MIN_SIZE, MOST_BUFFERS, MOST_CLIENTS, MOST_NODES};

/// A number that a line says.
#[derive(Clone, Copy)]
pub enum ServiceSetting {
    Nodes,
    Clients,
    Buffers,
    Size,
    Threshold,
    Traces,
    Pins,
    Backlog,
    Claims,
    Remember,
    Groups,
    Hold,
    Bytes,
}

/// A setting with the number that a line says of it.
#[derive(Clone, Copy)]
pub struct GivenNumber {
    pub setting: ServiceSetting,
    pub number: u64,
}

impl ServiceSetting {
    /// How many settings stand before this one in the list of all.
    pub fn place(self) -> u8
        ensures { result ≡ place_of self }
    {
        match self {
            ServiceSetting::Nodes => 0,
            ServiceSetting::Clients => 1,
            ServiceSetting::Buffers => 2,
            ServiceSetting::Size => 3,
            ServiceSetting::Threshold => 4,
            ServiceSetting::Traces => 5,
            ServiceSetting::Pins => 6,
            ServiceSetting::Backlog => 7,
            ServiceSetting::Claims => 8,
            ServiceSetting::Remember => 9,
            ServiceSetting::Groups => 10,
            ServiceSetting::Hold => 11,
            ServiceSetting::Bytes => 12,
        }
    }

    /// The least value.
    pub fn least(self) -> u64
        ensures { result ≡ least_of self }
    {
        match self {
            ServiceSetting::Size => u64::from(MIN_SIZE),
            ServiceSetting::Threshold | ServiceSetting::Pins => 0,
            ServiceSetting::Bytes => LEAST_BYTES,
            _ => 1,
        }
    }

    /// The greatest value.
    pub fn most(self) -> u64
        ensures { result ≡ most_of self }
    {
        match self {
            ServiceSetting::Nodes => u64::from(MOST_NODES),
            ServiceSetting::Clients => u64::from(MOST_CLIENTS),
            ServiceSetting::Buffers
            | ServiceSetting::Threshold
            | ServiceSetting::Traces
            | ServiceSetting::Pins => u64::from(MOST_BUFFERS),
            ServiceSetting::Size => u64::from(MAX_SIZE),
            ServiceSetting::Bytes => MOST_BYTES,
            _ => MOST_PLACES,
        }
    }

    /// The value where no line says it, for so many buffers.
    pub fn default(self, buffers: u64) -> u64
        ensures { result ≡ default_of self buffers }
    {
        match self {
            ServiceSetting::Nodes => u64::from(MOST_NODES),
            ServiceSetting::Clients => DEFAULT_CLIENTS,
            ServiceSetting::Buffers => DEFAULT_BUFFERS,
            ServiceSetting::Size => DEFAULT_SIZE,
            ServiceSetting::Threshold => buffers / 2,
            ServiceSetting::Traces => buffers,
            ServiceSetting::Pins => buffers / 16,
            ServiceSetting::Backlog => DEFAULT_BACKLOG,
            ServiceSetting::Claims => DEFAULT_CLAIMS,
            ServiceSetting::Remember => DEFAULT_REMEMBER,
            ServiceSetting::Groups => DEFAULT_GROUPS,
            ServiceSetting::Hold => DEFAULT_HOLD,
            ServiceSetting::Bytes => DEFAULT_BYTES,
        }
    }
}
