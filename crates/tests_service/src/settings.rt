//! Settings of a service: the defaults, each word, each reason for a refusal once, and a text of great length. What is expected stands in
//! `docs/FORMATS.md`, "Settings of a service".

use crate::rows::row;
use hs_base::{AutoRule, Memory, TriggerRule};
use hs_settings::{ServiceSettings, SettingsFault, SettingsReason, read_settings};
use std::alloc::{AllocError, Global};

/// Each word once, in no order, with lines that say nothing between.
const EACH_WORD: &[u8] =
    b"# all of them\nbytes 65536\nhold 2\n\ngroups 3\nremember 4\nclaims 5\nbacklog 6\npins 7\n#\ntraces 8\nthreshold 9\nsize 64\nbuffers 65536\nclients 256\nnodes 1\n";

/// Two trigger ids, one of them alone, and an autotrigger of each kind.
const RULES: &[u8] =
    b"triggerid 5\ntriggerid 64 100 1000 1000000\nauto 0 exception 64\nauto 1 percentile 5 2 1\nauto 2 category 5 1024 9999\nnodes 128\nauto 3 queue 5 2 1 32\n";

/// Lines behind two others, `nodes 4` and `triggerid 9`, with the first reason of each.
const REFUSED: [(&[u8], SettingsReason); 20] = [
    (b"size 64", SettingsReason::Truncated),
    (b"# \x7f\n", SettingsReason::Byte),
    (b"size\t64 \n", SettingsReason::Byte),
    (b"size  64\n", SettingsReason::Spaces),
    (b" #\n", SettingsReason::Spaces),
    (b"stride 8\n", SettingsReason::Word),
    (b"auto 0 median\n", SettingsReason::Word),
    (b"nodes\n", SettingsReason::Twice),
    (b"size\n", SettingsReason::Count),
    (b"triggerid 10 1\n", SettingsReason::Count),
    (b"auto x\n", SettingsReason::Count),
    (b"auto x exception\n", SettingsReason::Count),
    (b"size 064\n", SettingsReason::Number),
    (b"size 63\n", SettingsReason::Range),
    (b"size 32769\n", SettingsReason::Range),
    (b"triggerid 9 0 1 1\n", SettingsReason::Range),
    (b"auto 16 exception 8\n", SettingsReason::Range),
    (b"triggerid 9\n", SettingsReason::Order),
    (b"auto 1 exception 8\n", SettingsReason::Order),
    (b"auto 0 exception 8\n", SettingsReason::Unknown),
];

/// Whether a text is refused at this line for this reason.
fn is_refused(alloc: Global, text: &[u8], line: u64, reason: SettingsReason) -> bool {
    match read_settings(alloc, text) {
        Err(SettingsFault::Refused(refusal)) => refusal.line == line && refusal.reason == reason,
        _ => false,
    }
}

/// Whether the numbers of a node are these, in the order of `docs/FORMATS.md`.
fn has_node(settings: &ServiceSettings, numbers: [u32; 10]) -> bool {
    let found = [
        u32::from(settings.nodes),
        u32::from(settings.clients),
        settings.buffers,
        settings.size,
        settings.threshold,
        settings.traces,
        settings.pins,
        settings.backlog,
        settings.claims,
        settings.remember,
    ];
    found.as_slice() == numbers.as_slice()
}

/// Whether those of a hub are.
fn has_hub(settings: &ServiceSettings, groups: u32, hold: u32, bytes: u64) -> bool {
    settings.groups == groups && settings.hold == hold && settings.bytes == bytes
}

/// An empty text has all defaults.
fn defaults(alloc: Global) -> bool {
    let Ok(settings) = read_settings(alloc, b"") else {
        return false;
    };
    has_node(
        &settings,
        [128, 64, 16384, 4088, 8192, 16384, 1024, 64, 4096, 32768],
    ) && has_hub(&settings, 16384, 4096, 268_435_456)
}

/// Each word has its number.
fn each_word(alloc: Global) -> bool {
    let Ok(settings) = read_settings(alloc, EACH_WORD) else {
        return false;
    };
    has_node(&settings, [1, 256, 65536, 64, 9, 8, 7, 6, 5, 4]) && has_hub(&settings, 3, 2, 65536)
}

/// Fewer buffers have lower defaults, rounded down.
fn defaults_go_with_buffers(alloc: Global) -> bool {
    let Ok(settings) = read_settings(alloc, b"buffers 1001\n") else {
        return false;
    };
    settings.threshold == 500 && settings.traces == 1001 && settings.pins == 62
}

/// Whether a rule of a trigger id has these numbers.
fn is_rule(rule: Option<&TriggerRule>, id: u8, numbers: [u32; 3]) -> bool {
    match rule {
        Some(rule) => {
            rule.id.0 == id
                && rule.weight == numbers[0]
                && rule.burst == numbers[1]
                && rule.rate == numbers[2]
        }
        None => false,
    }
}

/// Whether an autotrigger for exceptions fires this id.
fn fires(auto: Option<&AutoRule>, id: u8) -> bool {
    match auto {
        Some(auto) => match *auto {
            AutoRule::Exception { trigger } => trigger.0 == id,
            _ => false,
        },
        None => false,
    }
}

/// Rules stand in the order of their lines, and an id alone has its default.
fn rules(alloc: Global) -> bool {
    let Ok(settings) = read_settings(alloc, RULES) else {
        return false;
    };
    let triggers = &settings.triggers;
    is_rule(triggers.get(0), 5, [1, 10, 1])
        && is_rule(triggers.get(1), 64, [100, 1000, 1_000_000])
        && triggers.len() == 2
        && settings.autos.len() == 4
        && fires(settings.autos.get(0), 64)
}

/// Each of these lines is refused for its first reason.
fn each_reason(alloc: Global) -> Result<bool, Memory> {
    let mut right = true;
    for (line, reason) in REFUSED {
        let mut text = Vec::from_slice(alloc, b"nodes 4\ntriggerid 9\n")?;
        text.extend_from_slice(line)?;
        right &= is_refused(alloc, &text, 3, reason);
    }
    Ok(right)
}

/// Threshold, pins and clients take one buffer too many, or leave one.
fn room(alloc: Global) -> bool {
    let none = read_settings(alloc, b"pins 3\nbuffers 10\nclients 2\nthreshold 5\n");
    let one = read_settings(alloc, b"pins 3\nbuffers 10\nclients 2\nthreshold 4\n");
    matches!(none, Err(SettingsFault::NoRoom)) && one.is_ok()
}

/// So many lines that say nothing, and this one behind them.
fn long_text(alloc: Global, count: u32, last: &[u8]) -> Result<Vec<u8>, AllocError> {
    let mut text = Vec::new(alloc);
    for _time in 0..count {
        text.extend_from_slice(b"# nothing\n\n")?;
    }
    text.extend_from_slice(last)?;
    Ok(text)
}

/// Whether a text says so many nodes.
fn has_nodes(alloc: Global, text: &[u8], nodes: u16) -> bool {
    match read_settings(alloc, text) {
        Ok(settings) => settings.nodes == nodes,
        Err(_) => false,
    }
}

/// A line behind many others is read, or refused by its number.
fn long_texts(alloc: Global, count: u32) -> Result<bool, Memory> {
    let good = long_text(alloc, count, b"nodes 7\n")?;
    let bad = long_text(alloc, count, b"nodes 0\n")?;
    let line = 2 * u64::from(count) + 1;
    Ok(has_nodes(alloc, &good, 7) && is_refused(alloc, &bad, line, SettingsReason::Range))
}

#[test]
fn settings(rt: HostRuntime) {
    row(&rt, "defaults", Ok(defaults(rt.alloc())));
    row(&rt, "each word", Ok(each_word(rt.alloc())));
    row(
        &rt,
        "fewer buffers",
        Ok(defaults_go_with_buffers(rt.alloc())),
    );
    row(&rt, "rules", Ok(rules(rt.alloc())));
    row(&rt, "each reason", each_reason(rt.alloc()));
    row(&rt, "room", Ok(room(rt.alloc())));
    row(&rt, "600,000 lines", long_texts(rt.alloc(), 300_000));
}
