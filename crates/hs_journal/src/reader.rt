//! A journal as far as it has been read, and what each line makes of it.

ghost use Rattle.std.specs.Prelude.{◌≡◌, ◌<◌, ◌≤◌, ◌∷◌, ◌++◌, [], true, false, None, map, length, OnOk, IfOk};
ghost use Rattle.hs_journal.specs.Faults.{all_clients, may_stand, is_out_of_range, is_out_of_order, is_in_draws, is_in_logs, is_ended};
ghost use Rattle.hs_text.specs.LineFaults.{line_fault_of};
ghost use Rattle.hs_text.specs.Steps.{Gives};
ghost use Rattle.hs_journal.specs.Forward.{IsSound, draft_of, past_of, after, fresh, entered, with_draw, with_step, line_step, journal_drafted};
ghost use Rattle.hs_journal.specs.declared.part.JournalPart.TheVariants.{Start};
ghost use Rattle.hs_journal.specs.declared.word.Keyword.TheVariants.{Journal as JournalWord};
ghost use Rattle.hs_records.specs.Journals.{journal_of};

use crate::line::{Numbers, numbers_in};
use crate::part::JournalPart;
use crate::refusal::JournalReason;
use crate::word::Keyword;
use hs_base::limits::{MAX_BUFFERS, MAX_CLIENTS, MAX_NODES};
use hs_base::{List, Memory, NodeId};
use hs_records::{Draw, Journal, Step};
use hs_text::{LineReasons, Stop, open_seen_line};
use std::alloc::Global;

/// Why a line is refused before its numbers are looked at.
const LINE_REASONS: LineReasons<JournalReason> = LineReasons {
    byte: JournalReason::Byte,
    spaces: JournalReason::Spaces,
    word: JournalReason::Word,
};

/// What the lines so far say.
#[derive(Drop)]
pub struct Reader {
    alloc: Global,
    place: JournalPart,
    nodes: u16,
    clients: u16,
    draws: List<List<Draw>>,
    current_draws: List<Draw>,
    logs: List<List<Step>>,
    current_log: List<Step>,
    told: List<NodeId>,
}

impl Reader {
    /// A reader that has read no line.
    pub fn new(alloc: Global) -> Reader
        ensures { draft_of result ≡ fresh }
    {
        Reader {
            alloc,
            place: JournalPart::Start,
            nodes: 0,
            clients: 0,
            draws: List::new(alloc),
            current_draws: List::new(alloc),
            logs: List::new(alloc),
            current_log: List::new(alloc),
            told: List::new(alloc),
        }
    }

    /// How many clients the journal has.
    fn all_clients(&self) -> u64
        requires { IsSound (draft_of self.now) }
        ensures { result ≡ all_clients (past_of (draft_of self.now)) }
    {
        u64::from(self.nodes) * u64::from(self.clients)
    }

    /// How many clients' draws have begun.
    fn begun_draws(&self) -> u64
        requires { IsSound (draft_of self.now) }
        ensures { result ≡ length (draft_of self.now).draws }
    {
        let finished = self.draws.len() as u64;
        match self.place {
            JournalPart::Draws => finished + 1,
            _ => finished,
        }
    }

    /// How many nodes' logs have begun.
    fn begun_logs(&self) -> u64
        requires { IsSound (draft_of self.now) }
        ensures { result ≡ length (draft_of self.now).logs }
    {
        let finished = self.logs.len() as u64;
        match self.place {
            JournalPart::Logs => finished + 1,
            _ => finished,
        }
    }

    /// Whether a line that begins with this word may stand here.
    fn may_stand(&self, keyword: Keyword) -> bool
        requires { IsSound (draft_of self.now) }
        ensures { result ≡ may_stand (past_of (draft_of self.now)) keyword }
    {
        match keyword {
            Keyword::Journal => matches!(self.place, JournalPart::Start),
            Keyword::Draws => match self.place {
                JournalPart::Head => true,
                JournalPart::Draws => self.begun_draws() < self.all_clients(),
                _ => false,
            },
            Keyword::Got | Keyword::Empty => matches!(self.place, JournalPart::Draws),
            Keyword::Log => match self.place {
                JournalPart::Draws => self.all_clients() <= self.begun_draws(),
                JournalPart::Logs => self.begun_logs() < u64::from(self.nodes),
                _ => false,
            },
            Keyword::Chunk
            | Keyword::Crumb
            | Keyword::Trigger
            | Keyword::Ask
            | Keyword::Turn
            | Keyword::Given
            | Keyword::Missed
            | Keyword::Unread => matches!(self.place, JournalPart::Logs),
            Keyword::Coordinator => match self.place {
                JournalPart::Logs => u64::from(self.nodes) <= self.begun_logs(),
                _ => false,
            },
            Keyword::Told | Keyword::End => matches!(self.place, JournalPart::Order),
        }
    }

    /// Whether a number is outside its range.
    fn is_out_of_range(&self, keyword: Keyword, numbers: Numbers) -> bool
        ensures { result ≡ is_out_of_range (past_of (draft_of self.now)) keyword numbers }
    {
        let Numbers {
            first,
            second,
            third,
        } = numbers;
        match keyword {
            Keyword::Journal => {
                first != 1
                    || (second < 1 || u64::from(MAX_NODES) < second)
                    || (third < 1 || u64::from(MAX_CLIENTS) < third)
            }
            Keyword::Got => u64::from(MAX_BUFFERS) <= first,
            Keyword::Chunk | Keyword::Crumb | Keyword::Trigger => u64::from(self.clients) <= first,
            Keyword::Told => u64::from(self.nodes) <= first,
            _ => false,
        }
    }

    /// Whether the draws or the log are not those of the next client or node.
    fn is_out_of_order(&self, keyword: Keyword, numbers: Numbers) -> bool
        requires sound { IsSound (draft_of self.now) }
        requires stands { may_stand (past_of (draft_of self.now)) keyword ≡ true }
        ensures { result ≡ is_out_of_order (past_of (draft_of self.now)) keyword numbers }
    {
        match keyword {
            Keyword::Draws => {
                let begun = self.begun_draws();
                let clients = u64::from(self.clients);
                numbers.first != begun / clients || numbers.second != begun % clients
            }
            Keyword::Log => numbers.first != self.begun_logs(),
            _ => false,
        }
    }

    /// Takes the list that goes on, where one does, to those before it.
    #[tactic(auto, using(crate::proofs::Drafts::map_push))]
    fn close(&mut self) -> Result<(), Memory>
        ensures draws { OnOk result (map (λ drawn. drawn.items) self.new.draws.items ≡ (draft_of self.old).draws) }
        ensures logs { OnOk result (map (λ log. log.items) self.new.logs.items ≡ (draft_of self.old).logs) }
        ensures nodes { self.new.nodes ≡ self.old.nodes }
        ensures clients { self.new.clients ≡ self.old.clients }
        ensures told { self.new.told.items ≡ self.old.told.items }
    {
        match self.place {
            JournalPart::Draws => {
                let current = std::mem::replace(&mut self.current_draws, List::new(self.alloc));
                self.draws.append(current)
            }
            JournalPart::Logs => {
                let current = std::mem::replace(&mut self.current_log, List::new(self.alloc));
                self.logs.append(current)
            }
            _ => Ok(()),
        }
    }

    /// Goes on to a place, where no draws or steps were read yet.
    fn enter(&mut self, place: JournalPart) -> Result<(), Memory>
        ensures { OnOk result (draft_of self.new ≡ entered (draft_of self.old) place) }
    {
        self.close()?;
        self.current_draws = List::new(self.alloc);
        self.current_log = List::new(self.alloc);
        self.place = place;
        Ok(())
    }

    /// Takes the numbers of the first line.
    fn begin(&mut self, numbers: Numbers)
        requires nodes { numbers.second ≤ MAX_NODES }
        requires clients { numbers.third ≤ MAX_CLIENTS }
        requires start { self.old.place ≡ Start }
        ensures { draft_of self.new ≡ after (draft_of self.old) JournalWord numbers }
    {
        self.nodes = numbers.second as u16;
        self.clients = numbers.third as u16;
        self.place = JournalPart::Head;
    }

    /// Adds a draw of the client that is read.
    #[tactic(auto, using(crate::proofs::Drafts::onto_current))]
    fn add_draw(&mut self, draw: Draw) -> Result<(), Memory>
        requires { is_in_draws self.old.place ≡ true }
        ensures { OnOk result (draft_of self.new ≡ with_draw (draft_of self.old) draw) }
    {
        self.current_draws.append(draw)
    }

    /// Adds a step of the agent that is read.
    #[tactic(auto, using(crate::proofs::Drafts::onto_current))]
    fn add_step(&mut self, step: Step) -> Result<(), Memory>
        requires { is_in_logs self.old.place ≡ true }
        ensures { OnOk result (draft_of self.new ≡ with_step (draft_of self.old) step) }
    {
        self.current_log.append(step)
    }

    /// Takes a line of this word and these numbers, which has no fault.
    fn take(&mut self, keyword: Keyword, numbers: Numbers) -> Result<(), Memory>
        requires sound { IsSound (draft_of self.old) }
        requires stands { may_stand (past_of (draft_of self.old)) keyword ≡ true }
        requires within { is_out_of_range (past_of (draft_of self.old)) keyword numbers ≡ false }
        ensures { OnOk result (draft_of self.new ≡ after (draft_of self.old) keyword numbers) }
    {
        let first = numbers.first;
        match keyword {
            Keyword::Journal => {
                self.begin(numbers);
                Ok(())
            }
            Keyword::Draws => self.enter(JournalPart::Draws),
            Keyword::Got => self.add_draw(Draw::Got {
                buffer: first as u32,
                stamp: numbers.second,
            }),
            Keyword::Empty => self.add_draw(Draw::Empty { stamp: first }),
            Keyword::Log => self.enter(JournalPart::Logs),
            Keyword::Chunk => self.add_step(Step::Chunk {
                client: first as u16,
            }),
            Keyword::Crumb => self.add_step(Step::Crumb {
                client: first as u16,
            }),
            Keyword::Trigger => self.add_step(Step::Trigger {
                client: first as u16,
            }),
            Keyword::Ask => self.add_step(Step::Ask),
            Keyword::Turn => self.add_step(Step::Turn),
            Keyword::Given => self.add_step(Step::Given { stamp: first }),
            Keyword::Missed => self.add_step(Step::Missed { stamp: first }),
            Keyword::Unread => self.add_step(Step::Unread),
            Keyword::Coordinator => self.enter(JournalPart::Order),
            Keyword::Told => self.told.append(NodeId(first as u16)),
            Keyword::End => self.enter(JournalPart::Ended),
        }
    }

    /// Takes the next line, whose bytes and spaces may have been looked at before.
    #[tactic(auto, unfolding(crate::specs::Forward::line_step))]
    pub fn read_line(&mut self, line: &[u8], is_seen: bool) -> Result<(), Stop<JournalReason>>
        requires sound { IsSound (draft_of self.old) }
        requires seen { is_seen ≡ true → line_fault_of line.now ≡ None }
        ensures { Gives (λ _. draft_of self.new) result (line_step (draft_of self.old) line.now) }
    {
        let (keyword, words) = open_seen_line::<Keyword, JournalReason>(
            line,
            is_seen,
            LINE_REASONS,
        )?;
        if !self.may_stand(keyword) {
            return Err(Stop::Fault(JournalReason::Word));
        }
        if words.count() != keyword.number_count() {
            return Err(Stop::Fault(JournalReason::Count));
        }
        let numbers = numbers_in(words)?;
        if self.is_out_of_range(keyword, numbers) {
            return Err(Stop::Fault(JournalReason::Range));
        }
        if self.is_out_of_order(keyword, numbers) {
            return Err(Stop::Fault(JournalReason::Order));
        }
        self.take(keyword, numbers)?;
        Ok(())
    }

    /// Whether the last line was read.
    pub fn is_ended(&self) -> bool
        ensures { result ≡ is_ended (draft_of self.now).place }
    {
        matches!(self.place, JournalPart::Ended)
    }

    /// The journal of the text that has ended.
    pub fn into_journal(self) -> Journal
        requires { is_ended (draft_of self).place ≡ true }
        ensures { journal_of result ≡ journal_drafted (draft_of self) }
    {
        let Reader {
            nodes,
            clients,
            draws,
            logs,
            told,
            ..
        } = self;
        Journal {
            nodes,
            clients,
            draws,
            logs,
            told,
        }
    }
}
