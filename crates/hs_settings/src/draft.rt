//! What was read so far, and what each kind of line makes of it.

ghost use Rattle.std.specs.Prelude.{◌≡◌, ◌≢◌, nat_le, [], false, true, None, OnOk, IfSome, IfNone, MatchOption, is_some, ◌≤◌};
ghost use Rattle.std.specs.List.{All, list_any};
ghost use Rattle.hs_base.specs.Rules.{is_declared};
ghost use Rattle.hs_text.specs.Steps.{Gives};
ghost use Rattle.hs_text.specs.WordsLeft.{words_in};
ghost use Rattle.hs_settings.specs.Settings.{said_of, value_of, most_of, buffers_of, has_room, service_of};
ghost use Rattle.hs_settings.specs.Statements.{Put, Declare, Watch, auto_rule, trigger_rule, numbers_say, is_skipped};
ghost use Rattle.hs_settings.specs.LookBack.{settings_said};
ghost use Rattle.hs_settings.specs.Faults.{is_twice, is_rule_out};
ghost use Rattle.hs_settings.specs.Forward.{fresh, past_of, after, statement_step, numbers_step, auto_step, keyword_step, words_step, skip_step, line_step, AreWithin};

use crate::limits::DEFAULT_BUFFERS;
use crate::numbers::{Numbers, numbers_in};
use crate::refusal::SettingsReason;
use crate::rules::{is_auto_out, is_out, is_rule_out, rule_of};
use crate::setting::{GivenNumber, ServiceSetting};
use crate::settings::ServiceSettings;
use crate::word::{Keyword, Kind};
use hs_base::limits::MAX_AUTOS;
use hs_base::{AutoRule, List, Memory, TriggerId, TriggerRule};
use hs_text::{
    LineFault, LineReasons, Stop, Words, line_fault, number_in, open_seen_line, spelled_word,
};
use std::alloc::Global;

/// Why a line is refused before the words behind its first are looked at.
const LINE_REASONS: LineReasons<SettingsReason> = LineReasons {
    byte: SettingsReason::Byte,
    spaces: SettingsReason::Spaces,
    word: SettingsReason::Word,
};

/// What the lines so far say.
#[derive(Drop)]
pub struct Reader {
    givens: List<GivenNumber>,
    rules: List<TriggerRule>,
    autos: List<AutoRule>,
}

/// Whether a line is empty or a comment.
fn is_skipped(line: &[u8]) -> bool
    ensures { result ≡ is_skipped line.now }
{
    match line.first() {
        None => true,
        Some(byte) => *byte == b'#',
    }
}

impl Reader {
    /// A reader that has read no line.
    pub fn new(alloc: Global) -> Reader
        ensures { past_of result ≡ fresh }
    {
        Reader {
            givens: List::new(alloc),
            rules: List::new(alloc),
            autos: List::new(alloc),
        }
    }

    /// The number that was given of a setting.
    fn said(&self, setting: ServiceSetting) -> Option<u64>
        ensures { result ≡ said_of (past_of self.now).givens setting }
    {
        for given in self.givens.as_slice() {
            if given.setting.place() == setting.place() {
                return Some(given.number);
            }
        }
        None
    }

    /// How many buffers there are.
    fn buffers(&self) -> u64
        ensures { result ≡ buffers_of (past_of self.now).givens }
    {
        match self.said(ServiceSetting::Buffers) {
            Some(buffers) => buffers,
            None => DEFAULT_BUFFERS,
        }
    }

    /// The number that was given of a setting, or its default.
    fn number(&self, setting: ServiceSetting) -> u64
        ensures { result ≡ value_of (past_of self.now).givens setting }
    {
        let buffers = self.buffers();
        match self.said(setting) {
            Some(number) => number,
            None => setting.default(buffers),
        }
    }

    /// The value of a setting.
    fn value(&self, setting: ServiceSetting) -> u64
        requires { AreWithin (past_of self.now).givens }
        ensures value { result ≡ value_of (past_of self.now).givens setting }
        ensures most { result ≤ most_of setting }
    {
        self.number(setting)
    }

    /// Whether an earlier line has this first word, where only one may.
    fn is_twice(&self, keyword: Keyword) -> bool
        ensures { result ≡ is_twice (past_of self.now) keyword }
    {
        match keyword {
            Keyword::Setting(setting) => self.said(setting).is_some(),
            _ => false,
        }
    }

    /// Takes the number of a setting.
    fn put(&mut self, setting: ServiceSetting, number: u64) -> Result<(), Stop<SettingsReason>>
        ensures { Gives (λ _. past_of self.new) result (statement_step (past_of self.old) (Put (record { setting = setting; number = number }))) }
    {
        if is_out(setting.least(), setting.most(), number) {
            return Err(Stop::Fault(SettingsReason::Range));
        }
        self.givens.append(GivenNumber { setting, number })?;
        Ok(())
    }

    /// Whether a declared trigger id is not below this one.
    fn is_behind(&self, id: u64) -> bool
        ensures { result ≡ list_any (λ (earlier : TriggerRule). nat_le id earlier.id.0) (past_of self.now).rules }
    {
        self.rules
            .as_slice()
            .iter()
            .any(|earlier| id <= u64::from(earlier.id.0))
    }

    /// Adds a trigger id.
    fn add_rule(&mut self, numbers: Numbers) -> Result<(), Memory>
        requires { is_rule_out (trigger_rule numbers) ≡ false }
        ensures { OnOk result (past_of self.new ≡ after (past_of self.old) (Declare (trigger_rule numbers))) }
    {
        self.rules.append(TriggerRule {
            id: TriggerId(numbers.first as u8),
            weight: numbers.second as u32,
            burst: numbers.third as u32,
            rate: numbers.fourth as u32,
        })?;
        Ok(())
    }

    /// Takes the rule of a trigger id.
    fn declare(&mut self, numbers: Numbers) -> Result<(), Stop<SettingsReason>>
        ensures { Gives (λ _. past_of self.new) result (statement_step (past_of self.old) (Declare (trigger_rule numbers))) }
    {
        if is_rule_out(numbers) {
            return Err(Stop::Fault(SettingsReason::Range));
        }
        if self.is_behind(numbers.first) {
            return Err(Stop::Fault(SettingsReason::Order));
        }
        self.add_rule(numbers)?;
        Ok(())
    }

    /// The declared trigger id of this number.
    fn declared(&self, id: u64) -> Option<TriggerId>
        ensures same { IfSome result (λ trigger. trigger.0 ≡ id) }
        ensures known { IfSome result (λ trigger. is_declared (past_of self.now).rules trigger ≡ true) }
        ensures none { IfNone result (All (λ (rule : TriggerRule). rule.id.0 ≢ id) (past_of self.now).rules) }
    {
        let rules = self.rules.as_slice();
        let place = rules.iter().position(|rule| u64::from(rule.id.0) == id)?;
        Some(rules[place].id)
    }

    /// Takes an autotrigger.
    #[tactic(auto, using(crate::proofs::Ids::undeclared))]
    fn watch(
        &mut self,
        number: u64,
        kind: Kind,
        numbers: Numbers,
    ) -> Result<(), Stop<SettingsReason>>
        ensures { Gives (λ _. past_of self.new) result (statement_step (past_of self.old) (Watch number (auto_rule kind numbers))) }
    {
        if MAX_AUTOS as u64 <= number || is_auto_out(kind, numbers) {
            return Err(Stop::Fault(SettingsReason::Range));
        }
        if number != self.autos.len() as u64 {
            return Err(Stop::Fault(SettingsReason::Order));
        }
        let Some(trigger) = self.declared(numbers.first) else {
            return Err(Stop::Fault(SettingsReason::Unknown));
        };
        self.autos.append(rule_of(kind, trigger, numbers))?;
        Ok(())
    }

    /// Takes the line of an autotrigger.
    #[tactic(auto, unfolding(crate::specs::Forward::auto_step))]
    fn auto(&mut self, mut words: Words<'_>) -> Result<(), Stop<SettingsReason>>
        ensures { Gives (λ _. past_of self.new) result (auto_step (past_of self.old) (words_in words.entry)) }
    {
        let number = words.take(SettingsReason::Count)?;
        let kind = words.take(SettingsReason::Count)?;
        let Some(kind) = spelled_word::<Kind>(kind) else {
            return Err(Stop::Fault(SettingsReason::Word));
        };
        if words.count() != kind.number_count() {
            return Err(Stop::Fault(SettingsReason::Count));
        }
        let number = number_in(number, SettingsReason::Number)?;
        let numbers = numbers_in(words)?;
        self.watch(number, kind, numbers)
    }

    /// Takes what a word says with so many numbers.
    fn say(
        &mut self,
        keyword: Keyword,
        count: usize,
        numbers: Numbers,
    ) -> Result<(), Stop<SettingsReason>>
        ensures { Gives (λ _. past_of self.new) result (statement_step (past_of self.old) (numbers_say keyword count numbers)) }
    {
        match keyword {
            Keyword::Setting(setting) => self.put(setting, numbers.first),
            Keyword::TriggerId => self.declare(numbers.with_defaults(count)),
            Keyword::Auto => Ok(()),
        }
    }

    /// Takes a line of numbers alone.
    fn numbers(&mut self, keyword: Keyword, words: Words<'_>) -> Result<(), Stop<SettingsReason>>
        ensures { Gives (λ _. past_of self.new) result (numbers_step (past_of self.old) keyword (words_in words.entry)) }
    {
        if self.is_twice(keyword) {
            return Err(Stop::Fault(SettingsReason::Twice));
        }
        let count = words.count();
        if !keyword.may_have(count) {
            return Err(Stop::Fault(SettingsReason::Count));
        }
        let numbers = numbers_in(words)?;
        self.say(keyword, count, numbers)
    }

    /// Takes a line with this first word.
    fn take(&mut self, keyword: Keyword, words: Words<'_>) -> Result<(), Stop<SettingsReason>>
        ensures { Gives (λ _. past_of self.new) result (keyword_step (past_of self.old) keyword (words_in words.entry)) }
    {
        match keyword {
            Keyword::Auto => self.auto(words),
            _ => self.numbers(keyword, words),
        }
    }

    /// Takes a line with words.
    #[tactic(auto, unfolding(crate::specs::Forward::words_step))]
    fn read_words(&mut self, line: &[u8]) -> Result<(), Stop<SettingsReason>>
        ensures { Gives (λ _. past_of self.new) result (words_step (past_of self.old) line.now) }
    {
        let (keyword, words) = open_seen_line::<Keyword, SettingsReason>(
            line,
            false,
            LINE_REASONS,
        )?;
        self.take(keyword, words)
    }

    /// Takes a line that is empty or a comment.
    fn skip(&self, line: &[u8]) -> Result<(), Stop<SettingsReason>>
        ensures { Gives (λ _. past_of self.now) result (skip_step (past_of self.now) line.now) }
    {
        match line_fault(line) {
            Some(LineFault::Byte) => Err(Stop::Fault(SettingsReason::Byte)),
            _ => Ok(()),
        }
    }

    /// Takes the next line.
    pub fn read_line(&mut self, line: &[u8]) -> Result<(), Stop<SettingsReason>>
        ensures { Gives (λ _. past_of self.new) result (line_step (past_of self.old) line.now) }
    {
        if is_skipped(line) {
            return self.skip(line);
        }
        self.read_words(line)
    }

    /// Whether buffers are left beside those that threshold, pins and clients may keep.
    fn has_room(&self) -> bool
        requires { AreWithin (past_of self.now).givens }
        ensures { result ≡ has_room (settings_said (past_of self.now)) }
    {
        let threshold = self.value(ServiceSetting::Threshold);
        let pins = self.value(ServiceSetting::Pins);
        let clients = self.value(ServiceSetting::Clients);
        threshold + pins + clients < self.value(ServiceSetting::Buffers)
    }

    /// The settings that were read, or `None` where they leave no room below `buffers`.
    pub fn into_settings(self) -> Option<ServiceSettings>
        requires { AreWithin (past_of self).givens }
        ensures said { IfSome result (λ settings. service_of settings ≡ settings_said (past_of self)) }
        ensures room { is_some result ≡ has_room (settings_said (past_of self)) }
    {
        if !self.has_room() {
            return None;
        }
        let nodes = self.value(ServiceSetting::Nodes) as u16;
        let clients = self.value(ServiceSetting::Clients) as u16;
        let buffers = self.value(ServiceSetting::Buffers) as u32;
        let size = self.value(ServiceSetting::Size) as u32;
        let threshold = self.value(ServiceSetting::Threshold) as u32;
        let traces = self.value(ServiceSetting::Traces) as u32;
        let pins = self.value(ServiceSetting::Pins) as u32;
        let backlog = self.value(ServiceSetting::Backlog) as u32;
        let claims = self.value(ServiceSetting::Claims) as u32;
        let remember = self.value(ServiceSetting::Remember) as u32;
        let groups = self.value(ServiceSetting::Groups) as u32;
        let hold = self.value(ServiceSetting::Hold) as u32;
        let bytes = self.value(ServiceSetting::Bytes);
        let Reader { rules, autos, .. } = self;
        Some(ServiceSettings {
            nodes,
            clients,
            buffers,
            size,
            threshold,
            traces,
            pins,
            backlog,
            claims,
            remember,
            groups,
            hold,
            bytes,
            triggers: rules,
            autos,
        })
    }
}
