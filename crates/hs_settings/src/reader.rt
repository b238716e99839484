//! Reading the settings of a service, a line at a time.

ghost use Rattle.std.specs.Prelude.{◌≡◌, IfOk, IfErr, Ok};
ghost use Rattle.hs_settings.specs.Settings.{service_of, IsServiceSettings};
ghost use Rattle.hs_settings.specs.Faults.{reading_of, Refuses};
ghost use Rattle.hs_settings.specs.Forward.{fault_for};

use crate::draft::Reader;
use crate::refusal::{SettingsFault, SettingsReason, SettingsRefusal};
use crate::settings::ServiceSettings;
use hs_text::{Stop, split_line};
use std::alloc::Global;

/// The fault for what ended the reading of this line.
fn fault_for(line: u64, stop: Stop<SettingsReason>) -> SettingsFault
    ensures { result ≡ fault_for line stop }
{
    match stop {
        Stop::Fault(reason) => SettingsFault::Refused(SettingsRefusal { line, reason }),
        Stop::Memory => SettingsFault::Memory,
    }
}

/// The settings that a text says, or why it says none: its first bad line with the line's first reason, or that all lines together
/// leave no room below `buffers`. `Memory` may come with any text.
pub fn read_settings(alloc: Global, text: &[u8]) -> Result<ServiceSettings, SettingsFault>
    // What is read is what the lines say, with a default for each number of which they say nothing.
    ensures read { IfOk result (λ settings. reading_of text.now ≡ Ok (service_of settings)) }
    ensures valid { IfOk result (λ settings. IsServiceSettings (service_of settings)) }
    // What is refused has this fault, and no other.
    ensures refused { IfErr result (Refuses text.now) }
{
    let mut reader = Reader::new(alloc);
    let mut rest = text;
    let mut lines: u64 = 0;
    while let Some((line, behind)) = split_line(rest) {
        lines += 1;
        if let Err(stop) = reader.read_line(line) {
            return Err(fault_for(lines, stop));
        }
        rest = behind;
    }
    if !rest.is_empty() {
        return Err(fault_for(lines + 1, Stop::Fault(SettingsReason::Truncated)));
    }
    match reader.into_settings() {
        Some(settings) => Ok(settings),
        None => Err(SettingsFault::NoRoom),
    }
}
