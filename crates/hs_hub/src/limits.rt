//! The limits of a hub by the settings of a service, and what they are where no setting says them.

ghost use Rattle.std.specs.Prelude.{◌≡◌};
ghost use Rattle.hs_settings.specs.Settings.{service_of};
ghost use Rattle.hs_hub.specs.ByService.{limits_by};

use crate::answers::HubLimits;
use hs_settings::ServiceSettings;

/// For each trace that a hub may hold, how many standings it keeps.
pub const STANDINGS_OF_A_TRACE: u32 = 16;

/// For each trace that a hub may hold, how many messages it keeps.
pub const MESSAGES_OF_A_TRACE: u32 = 32;

/// After how many passes a node that does not answer is asked again: a second, at ten passes a second.
pub const DEFAULT_WAIT: u64 = 10;

/// How often it is asked again.
pub const DEFAULT_TRIES: u32 = 5;

/// After how many passes a trace is given out though more may come of it: half a minute, at ten passes a second.
pub const DEFAULT_AGE: u64 = 300;

/// The limits of a hub by the settings of a service.
pub fn hub_limits(settings: &ServiceSettings) -> HubLimits
    ensures { result ≡ limits_by (service_of settings.now) }
{
    HubLimits {
        nodes: settings.nodes,
        groups: settings.groups,
        hold: settings.hold,
        bytes: settings.bytes,
        standings: settings.hold.saturating_mul(STANDINGS_OF_A_TRACE),
        messages: settings.hold.saturating_mul(MESSAGES_OF_A_TRACE),
        wait: DEFAULT_WAIT,
        tries: DEFAULT_TRIES,
        age: DEFAULT_AGE,
    }
}
