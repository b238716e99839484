//! A workload as far as it has been read, and what each kind of line makes of it.

ghost use Rattle.std.specs.Prelude.{◌≡◌, ◌+◌, ◌≢◌, ◌==◌, nat_le, ◌&&◌, ◌<◌, ◌≤◌, ◌*◌, [], length, true, false, None, OnOk, IfOk, IfSome, IfNone};
ghost use Rattle.std.specs.List.{All, list_any};
ghost use Rattle.hs_base.specs.Rules.{is_declared};
ghost use Rattle.hs_text.specs.LineFaults.{line_fault_of};
ghost use Rattle.hs_base.specs.Ranges.{is_out};
ghost use Rattle.hs_base.specs.Ids.{trace_digits};
ghost use Rattle.hs_text.specs.Steps.{Gives, value_or};
ghost use Rattle.hs_text.specs.WordsLeft.{words_in};
ghost use Rattle.hs_records.specs.Plain.{Begin, Crumb, End, Fire, Sample};
ghost use Rattle.hs_records.specs.Views.{operation_of, workload_of};
ghost use Rattle.hs_workload.specs.declared.refusal.Reason.TheVariants.{Hex};
ghost use Rattle.hs_records.specs.declared.setting.Setting.TheVariants.{Version, Nodes, Clients, Size};
ghost use Rattle.hs_workload.specs.declared.word.Keyword.TheVariants.{TriggerId as TriggerIdWord};
ghost use Rattle.hs_workload.specs.Settings.{setting_in};
ghost use Rattle.hs_workload.specs.Statements.{Put, Watch, Start, Operate, Finish, auto_rule, fire, numbers_say, trace_of, traces_of};
ghost use Rattle.hs_workload.specs.Faults.{all_clients, may_stand, is_rule_out, is_auto_out, version_of};
ghost use Rattle.hs_workload.specs.Forward.{fresh, IsSound, draft_of, past_of, closed, after, with_operation, counted, counted_once, statement_step, numbers_step, begin_step, point_step, trigger_step, auto_step, keyword_step, line_step, open_after, workload_drafted};

use crate::line::{Numbers, numbers_in};
use crate::refusal::Reason;
use crate::rules::{is_auto_out, is_out, is_rule_out, rule_of};
use crate::word::{Keyword, Kind};
use hs_base::limits::{MAX_AUTOS, MAX_LATERALS, MAX_OPERATIONS, MAX_PAYLOAD, MAX_SIZE, MIN_SIZE};
use hs_base::{
    AutoRule, Laterals, List, Memory, NodeId, Settings, TraceId, Trigger, TriggerId, TriggerRule,
};
use hs_records::{Op, Setting, Workload, piece_count};
use hs_text::{
    LineReasons, Stop, Words, decode_payload, hex_in, number_in, open_seen_line, spelled_word,
};
use std::alloc::Global;

/// Why a line is refused before the words behind its first are looked at.
const LINE_REASONS: LineReasons<Reason> = LineReasons {
    byte: Reason::Byte,
    spaces: Reason::Spaces,
    word: Reason::Word,
};

/// What the lines so far say.
#[derive(Drop)]
pub struct Reader {
    alloc: Global,
    lines: u32,
    head: List<u32>,
    rules: List<TriggerRule>,
    autos: List<AutoRule>,
    started: u32,
    is_open: bool,
    pieces: u32,
    is_done: bool,
    current: List<Op>,
    finished: List<List<Op>>,
}

/// The operation that is this trigger.
fn boxed(alloc: Global, trigger: Trigger) -> Result<Op, Memory>
    ensures { IfOk result (λ operation. operation_of operation ≡ Fire trigger) }
{
    let trigger = Box::new(alloc, trigger)?;
    Ok(Op::Trigger { trigger })
}

impl Reader {
    /// A reader that has read no line.
    pub fn new(alloc: Global) -> Reader
        ensures { draft_of result ≡ fresh }
    {
        Reader {
            alloc,
            lines: 0,
            head: List::new(alloc),
            rules: List::new(alloc),
            autos: List::new(alloc),
            started: 0,
            is_open: false,
            pieces: 0,
            is_done: false,
            current: List::new(alloc),
            finished: List::new(alloc),
        }
    }

    /// A setting of the head, 0 where the head has not come to it.
    fn setting(&self, setting: Setting) -> u32
        ensures { result ≡ setting_in (draft_of self.now).head setting }
    {
        match self.head.get(setting.place()) {
            Some(number) => *number,
            None => 0,
        }
    }

    /// The size of a page, behind the head.
    #[tactic(auto, using(crate::proofs::Numbers::least_size))]
    fn size(&self) -> u32
        requires sound { IsSound (draft_of self.now) }
        requires started { 0 < (draft_of self.now).started }
        ensures value { result ≡ setting_in (draft_of self.now).head Size }
        ensures least { MIN_SIZE ≤ result }
        ensures most { result ≤ MAX_SIZE }
    {
        self.setting(Setting::Size)
    }

    /// How many clients the workload has.
    fn all_clients(&self) -> u32
        requires { IsSound (draft_of self.now) }
        ensures { result ≡ all_clients (draft_of self.now).head }
    {
        self.setting(Setting::Nodes) * self.setting(Setting::Clients)
    }

    /// Whether a line that begins with this word may stand here.
    fn may_stand(&self, keyword: Keyword) -> bool
        requires { IsSound (draft_of self.now) }
        ensures { result ≡ may_stand (past_of (draft_of self.now)) keyword }
    {
        let has_head = self.head.len() == 9;
        match keyword {
            Keyword::Setting(setting) => self.head.len() == setting.place(),
            Keyword::TriggerId => has_head && self.autos.len() == 0 && self.started == 0,
            Keyword::Auto => has_head && self.started == 0,
            Keyword::Client => has_head && self.started < self.all_clients() && !self.is_done,
            Keyword::Done => {
                0 < self.started && self.all_clients() <= self.started && !self.is_done
            }
            _ => 0 < self.started && !self.is_done,
        }
    }

    /// Takes a number of the head.
    fn put(&mut self, setting: Setting, number: u64) -> Result<(), Stop<Reason>>
        requires { IsSound (draft_of self.old) }
        ensures { Gives (λ _. draft_of self.new) result (statement_step (draft_of self.old) (Put setting number)) }
    {
        if is_out(setting.least(), setting.most(), number) {
            return Err(Stop::Fault(Reason::Range));
        }
        self.head.append(number as u32)?;
        self.lines += 1;
        Ok(())
    }

    /// Whether a declared trigger id is not below this one.
    fn is_behind(&self, id: u64) -> bool
        ensures { result ≡ list_any (λ (earlier : TriggerRule). nat_le id earlier.id.0) (draft_of self.now).rules }
    {
        self.rules
            .as_slice()
            .iter()
            .any(|earlier| id <= u64::from(earlier.id.0))
    }

    /// Adds a trigger id.
    fn add_rule(&mut self, numbers: Numbers) -> Result<(), Memory>
        requires sound { IsSound (draft_of self.old) }
        requires within { is_rule_out (record { id = record { 0 = numbers.first }; weight = numbers.second; burst = numbers.third; rate = numbers.fourth }) ≡ false }
        ensures { OnOk result (draft_of self.new ≡ after (draft_of self.old) (numbers_say TriggerIdWord numbers)) }
    {
        self.rules.append(TriggerRule {
            id: TriggerId(numbers.first as u8),
            weight: numbers.second as u32,
            burst: numbers.third as u32,
            rate: numbers.fourth as u32,
        })?;
        self.lines += 1;
        Ok(())
    }

    /// Takes the line of a trigger id.
    fn declare(&mut self, numbers: Numbers) -> Result<(), Stop<Reason>>
        requires { IsSound (draft_of self.old) }
        ensures { Gives (λ _. draft_of self.new) result (statement_step (draft_of self.old) (numbers_say TriggerIdWord numbers)) }
    {
        if is_rule_out(numbers) {
            return Err(Stop::Fault(Reason::Range));
        }
        if self.is_behind(numbers.first) {
            return Err(Stop::Fault(Reason::Order));
        }
        self.add_rule(numbers)?;
        Ok(())
    }

    /// The declared trigger id of this number.
    fn declared(&self, id: u64) -> Option<TriggerId>
        ensures same { IfSome result (λ trigger. trigger.0 ≡ id) }
        ensures known { IfSome result (λ trigger. is_declared (draft_of self.now).rules trigger ≡ true) }
        ensures none { IfNone result (All (λ (rule : TriggerRule). rule.id.0 ≢ id) (draft_of self.now).rules) }
    {
        let rules = self.rules.as_slice();
        let place = rules.iter().position(|rule| u64::from(rule.id.0) == id)?;
        Some(rules[place].id)
    }

    /// Takes an autotrigger.
    #[tactic(auto, using(crate::proofs::Numbers::undeclared))]
    fn watch(&mut self, number: u64, kind: Kind, numbers: Numbers) -> Result<(), Stop<Reason>>
        requires { IsSound (draft_of self.old) }
        ensures { Gives (λ _. draft_of self.new) result (statement_step (draft_of self.old) (Watch number (auto_rule kind numbers))) }
    {
        if MAX_AUTOS as u64 <= number || is_auto_out(kind, numbers) {
            return Err(Stop::Fault(Reason::Range));
        }
        if number != self.autos.len() as u64 {
            return Err(Stop::Fault(Reason::Order));
        }
        let Some(trigger) = self.declared(numbers.first) else {
            return Err(Stop::Fault(Reason::Unknown));
        };
        self.autos.append(rule_of(kind, trigger, numbers))?;
        self.lines += 1;
        Ok(())
    }

    /// Takes the line of an autotrigger.
    #[inline(never)]
    #[tactic(auto, unfolding(crate::specs::Forward::auto_step))]
    fn auto(&mut self, mut words: Words<'_>) -> Result<(), Stop<Reason>>
        requires { IsSound (draft_of self.old) }
        ensures { Gives (λ _. draft_of self.new) result (auto_step (draft_of self.old) (words_in words.entry)) }
    {
        let number = words.take(Reason::Count)?;
        let kind = words.take(Reason::Count)?;
        let Some(kind) = spelled_word::<Kind>(kind) else {
            return Err(Stop::Fault(Reason::Word));
        };
        if words.count() != kind.number_count() {
            return Err(Stop::Fault(Reason::Count));
        }
        let number = number_in(number, Reason::Number)?;
        let numbers = numbers_in(words)?;
        self.watch(number, kind, numbers)
    }

    /// Takes the client's operations to those of the clients before it, where a client has begun.
    fn close_client(&mut self) -> Result<(), Memory>
        ensures { OnOk result (draft_of self.new
            ≡ record (draft_of self.old) { finished = closed (draft_of self.old); current = [] }) }
    {
        let current = std::mem::replace(&mut self.current, List::new(self.alloc));
        if 0 < self.started {
            self.finished.append(current)?;
        }
        Ok(())
    }

    /// Begins a client.
    #[tactic(auto, using(crate::proofs::Numbers::factor_positive))]
    fn start_client(&mut self, node: u64, number: u64) -> Result<(), Stop<Reason>>
        requires sound { IsSound (draft_of self.old) }
        requires left { (draft_of self.old).started < all_clients (draft_of self.old).head }
        ensures { Gives (λ _. draft_of self.new) result (statement_step (draft_of self.old) (Start node number)) }
    {
        let clients = self.setting(Setting::Clients);
        if node != u64::from(self.started / clients)
            || number != u64::from(self.started % clients)
        {
            return Err(Stop::Fault(Reason::Order));
        }
        if self.is_open {
            return Err(Stop::Fault(Reason::StillOpen));
        }
        self.close_client()?;
        self.started += 1;
        self.lines += 1;
        Ok(())
    }

    /// The trace that a word is.
    fn trace(&self, word: &[u8]) -> Result<TraceId, Stop<Reason>>
        ensures { Gives (λ trace. trace) result (value_or Hex (trace_of (version_of (past_of (draft_of self.now))) word.now)) }
    {
        let digits = if self.setting(Setting::Version) == 1 {
            16
        } else {
            32
        };
        Ok(TraceId(hex_in(word, digits, Reason::Hex)?))
    }

    /// The traces that at most 32 words are.
    fn laterals(&self, mut words: Words<'_>) -> Result<Laterals, Stop<Reason>>
        requires { length (words_in words) ≤ MAX_LATERALS }
        ensures { Gives (λ laterals. laterals) result (value_or Hex (traces_of (version_of (past_of (draft_of self.now))) (words_in words.entry))) }
    {
        let mut laterals = Laterals::none();
        while let Some(word) = words.next() {
            laterals.push(self.trace(word)?);
        }
        Ok(laterals)
    }

    /// The operations so far with so many more.
    fn counted(&self, more: u32) -> Result<u32, Stop<Reason>>
        requires sound { IsSound (draft_of self.now) }
        requires few { more ≤ MAX_PAYLOAD + 1 }
        ensures { Gives (λ n. n) result (counted (draft_of self.now).pieces more) }
    {
        let pieces = self.pieces + more;
        if MAX_OPERATIONS < pieces {
            return Err(Stop::Fault(Reason::TooMany));
        }
        Ok(pieces)
    }

    /// Adds an operation that leaves a trace open or does not, with which there are so many.
    fn add(&mut self, operation: Op, is_open: bool, pieces: u32) -> Result<(), Memory>
        requires sound { IsSound (draft_of self.old) }
        requires opens { is_open ≡ open_after (draft_of self.old).is_open (operation_of operation) }
        ensures { OnOk result (draft_of self.new ≡ with_operation (draft_of self.old) (operation_of operation) pieces) }
    {
        self.current.append(operation)?;
        self.pieces = pieces;
        self.lines += 1;
        self.is_open = is_open;
        Ok(())
    }

    /// Takes an operation that counts once and has no other fault.
    fn operate(&mut self, operation: Op, is_open: bool) -> Result<(), Stop<Reason>>
        requires sound { IsSound (draft_of self.old) }
        requires opens { is_open ≡ open_after (draft_of self.old).is_open (operation_of operation) }
        ensures { Gives (λ _. draft_of self.new) result (counted_once (draft_of self.old) (operation_of operation)) }
    {
        let pieces = self.counted(1)?;
        self.add(operation, is_open, pieces)?;
        Ok(())
    }

    /// Takes a line that begins a trace.
    #[tactic(auto, unfolding(crate::specs::Forward::begin_step))]
    fn begin(&mut self, words: Words<'_>) -> Result<(), Stop<Reason>>
        requires { IsSound (draft_of self.old) }
        ensures { Gives (λ _. draft_of self.new) result (begin_step (draft_of self.old) (words_in words.entry)) }
    {
        let trace = self.trace(words.last(Reason::Count)?)?;
        if self.is_open {
            return Err(Stop::Fault(Reason::Open));
        }
        self.operate(Op::Begin { trace }, true)
    }

    /// Takes a line that is a record.
    #[tactic(auto, unfolding(crate::specs::Forward::point_step))]
    fn point(&mut self, mut words: Words<'_>) -> Result<(), Stop<Reason>>
        requires sound { IsSound (draft_of self.old) }
        requires started { 0 < (draft_of self.old).started }
        ensures { Gives (λ _. draft_of self.new) result (point_step (draft_of self.old) (words_in words.entry)) }
    {
        let moment = words.take(Reason::Count)?;
        let (word, bytes) = words.last_payload(Reason::Count)?;
        let moment = number_in(moment, Reason::Number)?;
        let Some(bytes) = bytes else {
            return Err(Stop::Fault(Reason::Hex));
        };
        if MAX_PAYLOAD < bytes {
            return Err(Stop::Fault(Reason::Range));
        }
        if !self.is_open {
            return Err(Stop::Fault(Reason::NoTrace));
        }
        let size = self.size();
        let pieces = self.counted(piece_count(size, bytes) as u32)?;
        let payload = decode_payload(self.alloc, word)?;
        self.add(Op::Point { moment, payload }, true, pieces)?;
        Ok(())
    }

    /// Takes a crumb.
    fn crumb(&mut self, node: u64) -> Result<(), Stop<Reason>>
        requires { IsSound (draft_of self.old) }
        ensures { Gives (λ _. draft_of self.new) result (statement_step (draft_of self.old) (Operate (Crumb (record { 0 = node })))) }
    {
        if u64::from(self.setting(Setting::Nodes)) <= node {
            return Err(Stop::Fault(Reason::Range));
        }
        if !self.is_open {
            return Err(Stop::Fault(Reason::NoTrace));
        }
        let node = NodeId(node as u16);
        self.operate(Op::Crumb { node }, true)
    }

    /// Takes the end of a trace.
    fn end(&mut self) -> Result<(), Stop<Reason>>
        requires { IsSound (draft_of self.old) }
        ensures { Gives (λ _. draft_of self.new) result (statement_step (draft_of self.old) (Operate End)) }
    {
        if !self.is_open {
            return Err(Stop::Fault(Reason::NoTrace));
        }
        self.operate(Op::End, false)
    }

    /// Takes the line of a trigger. Its traces need room that other lines are not to pay for.
    #[inline(never)]
    #[tactic(auto, unfolding(crate::specs::Forward::trigger_step))]
    fn trigger(&mut self, mut words: Words<'_>) -> Result<(), Stop<Reason>>
        requires { IsSound (draft_of self.old) }
        ensures { Gives (λ _. draft_of self.new) result (trigger_step (draft_of self.old) (words_in words.entry)) }
    {
        let moment = words.take(Reason::Count)?;
        let id = words.take(Reason::Count)?;
        let lead = words.take(Reason::Count)?;
        if MAX_LATERALS < words.count() {
            return Err(Stop::Fault(Reason::Count));
        }
        let moment = number_in(moment, Reason::Number)?;
        let id = number_in(id, Reason::Number)?;
        let lead = self.trace(lead)?;
        let laterals = self.laterals(words)?;
        self.fire(moment, id, lead, laterals)
    }

    /// Takes a trigger.
    #[tactic(auto, using(crate::proofs::Numbers::undeclared))]
    fn fire(
        &mut self,
        moment: u64,
        id: u64,
        lead: TraceId,
        laterals: Laterals,
    ) -> Result<(), Stop<Reason>>
        requires { IsSound (draft_of self.old) }
        ensures { Gives (λ _. draft_of self.new) result (statement_step (draft_of self.old) (fire moment id lead laterals)) }
    {
        let Some(trigger) = self.declared(id) else {
            return Err(Stop::Fault(Reason::Unknown));
        };
        let is_open = self.is_open;
        let trigger = Trigger {
            moment,
            trigger,
            lead,
            laterals,
        };
        let operation = boxed(self.alloc, trigger)?;
        self.operate(operation, is_open)
    }

    /// Takes a sample.
    fn sample(&mut self, moment: u64, auto: u64, value: u64) -> Result<(), Stop<Reason>>
        requires { IsSound (draft_of self.old) }
        ensures { Gives (λ _. draft_of self.new) result (statement_step (draft_of self.old) (Operate (Sample moment auto value))) }
    {
        if self.autos.len() as u64 <= auto {
            return Err(Stop::Fault(Reason::Unknown));
        }
        if !self.is_open {
            return Err(Stop::Fault(Reason::NoTrace));
        }
        let auto = auto as u32;
        let operation = Op::Sample {
            moment,
            auto,
            value,
        };
        self.operate(operation, true)
    }

    /// Takes the last line.
    fn finish(&mut self) -> Result<(), Stop<Reason>>
        requires { IsSound (draft_of self.old) }
        ensures { Gives (λ _. draft_of self.new) result (statement_step (draft_of self.old) Finish) }
    {
        if self.is_open {
            return Err(Stop::Fault(Reason::StillOpen));
        }
        self.is_done = true;
        self.lines += 1;
        Ok(())
    }

    /// Takes what a word says with these numbers.
    fn say(&mut self, keyword: Keyword, numbers: Numbers) -> Result<(), Stop<Reason>>
        requires sound { IsSound (draft_of self.old) }
        requires stands { may_stand (past_of (draft_of self.old)) keyword ≡ true }
        ensures { Gives (λ _. draft_of self.new) result (statement_step (draft_of self.old) (numbers_say keyword numbers)) }
    {
        match keyword {
            Keyword::Setting(setting) => self.put(setting, numbers.first),
            Keyword::TriggerId => self.declare(numbers),
            Keyword::Client => self.start_client(numbers.first, numbers.second),
            Keyword::Crumb => self.crumb(numbers.first),
            Keyword::Sample => self.sample(numbers.first, numbers.second, numbers.third),
            Keyword::End => self.end(),
            _ => self.finish(),
        }
    }

    /// Takes a line of numbers alone.
    fn numbers(&mut self, keyword: Keyword, words: Words<'_>) -> Result<(), Stop<Reason>>
        requires sound { IsSound (draft_of self.old) }
        requires stands { may_stand (past_of (draft_of self.old)) keyword ≡ true }
        ensures { Gives (λ _. draft_of self.new) result (numbers_step (draft_of self.old) keyword (words_in words.entry)) }
    {
        if words.count() != keyword.number_count() {
            return Err(Stop::Fault(Reason::Count));
        }
        let numbers = numbers_in(words)?;
        self.say(keyword, numbers)
    }

    /// Takes a line whose first word may stand here.
    fn take(&mut self, keyword: Keyword, words: Words<'_>) -> Result<(), Stop<Reason>>
        requires sound { IsSound (draft_of self.old) }
        requires stands { may_stand (past_of (draft_of self.old)) keyword ≡ true }
        ensures { Gives (λ _. draft_of self.new) result (keyword_step (draft_of self.old) keyword (words_in words.entry)) }
    {
        match keyword {
            Keyword::Begin => self.begin(words),
            Keyword::Point => self.point(words),
            Keyword::Trigger => self.trigger(words),
            Keyword::Auto => self.auto(words),
            _ => self.numbers(keyword, words),
        }
    }

    /// Takes the next line, whose bytes and spaces may have been looked at before.
    #[tactic(auto, unfolding(crate::specs::Forward::line_step))]
    pub fn read_line(&mut self, line: &[u8], is_seen: bool) -> Result<(), Stop<Reason>>
        requires sound { IsSound (draft_of self.old) }
        requires seen { is_seen ≡ true → line_fault_of line.now ≡ None }
        ensures { Gives (λ _. draft_of self.new) result (line_step (draft_of self.old) line.now) }
    {
        let (keyword, words) = open_seen_line::<Keyword, Reason>(line, is_seen, LINE_REASONS)?;
        if !self.may_stand(keyword) {
            return Err(Stop::Fault(Reason::Word));
        }
        self.take(keyword, words)
    }

    /// How many lines were read.
    pub fn lines(&self) -> u32
        ensures { result ≡ (draft_of self.now).lines }
    {
        self.lines
    }

    /// Whether a text ends here with its last line, where this stands behind the lines.
    pub fn has_ended(&self, rest: &[u8]) -> bool
        ensures { result ≡ (length rest.now == 0 && (draft_of self.now).is_done) }
    {
        rest.is_empty() && self.is_done
    }

    /// The workload of the text that has ended.
    pub fn into_workload(mut self) -> Result<Workload, Memory>
        requires { IsSound (draft_of self) }
        ensures { IfOk result (λ workload. workload_of workload ≡ workload_drafted (draft_of self)) }
    {
        let version = self.setting(Setting::Version) as u8;
        let nodes = self.setting(Setting::Nodes) as u16;
        let clients = self.setting(Setting::Clients) as u16;
        let buffers = self.setting(Setting::Buffers);
        let size = self.setting(Setting::Size);
        let threshold = self.setting(Setting::Threshold);
        let traces = self.setting(Setting::Traces);
        let pins = self.setting(Setting::Pins);
        let stride = self.setting(Setting::Stride);
        self.close_client()?;
        let Reader {
            rules,
            autos,
            finished,
            ..
        } = self;
        let settings = Settings {
            nodes,
            clients,
            buffers,
            size,
            threshold,
            traces,
            pins,
            stride,
            triggers: rules,
            autos,
        };
        Ok(Workload {
            version,
            settings,
            clients: finished,
        })
    }
}
