//! A client between two operations.

ghost use Rattle.std.specs.Prelude.{◌≡◌, ◌↔◌, ◌+◌, ◌<◌, ◌≤◌, ◌^◌, [], ◌∷◌, length, slice_get, IsTrue, Some, None, IsSome, OnOk};
ghost use Rattle.hs_auto.specs.Watching.{Watch};
ghost use Rattle.hs_base.specs.Rules.{fired_by};
ghost use Rattle.hs_records.specs.Plain.{Begin, Point, Crumb as LeaveCrumb, End, Fire, Sample};
ghost use Rattle.hs_records.specs.Records.{piece_count};
ghost use Rattle.hs_records.specs.Validity.{operation_pieces};
ghost use Rattle.hs_records.specs.Views.{operation_of};
ghost use Rattle.hs_replay_client.specs.Writing.{Spends, CountsOne, IsSound};
ghost use Rattle.hs_replay_client.specs.Doing.{Does, HasNothing, MayDo};
ghost use Rattle.hs_replay_client.specs.Inside.{working_in};
ghost use Rattle.hs_replay_client.specs.Wells.{IsReadyFor};

use crate::well::Well;
use crate::writer::Writer;
use hs_auto::{Auto, Sampled};
use hs_base::{AutoRule, Crumb, List, Memory, NodeId, TraceId, Trigger, TriggerId};
use hs_client::Begun;
use hs_client::sending_laws::one_operation_more;
use hs_records::Op;
use std::collections::VecDeque;

/// A client's core with its autotriggers, and the three queues of what it sent.
#[derive(Drop)]
pub(crate) struct Doing {
    pub(crate) writer: Writer,
    pub(crate) autos: List<Auto>,
    pub(crate) crumbs: VecDeque<Crumb>,
    pub(crate) triggers: VecDeque<Trigger>,
}

impl Doing {
    /// Does the next operation.
    pub(crate) fn step<W: Well>(
        &mut self,
        well: &mut W,
        rules: &[AutoRule],
        operation: &Op,
    ) -> Result<(), Memory>
        requires sound { IsSound self.old.writer.core }
        requires may { MayDo rules.now (operation_of operation.now) (working_in self.old) }
        requires ready { IsReadyFor W.way well.old self.old.writer.core.size (operation_pieces self.old.writer.core.size (operation_of operation.now)) }
        ensures done { OnOk result (Does (operation_of operation.now) (working_in self.old) (working_in self.new)) }
        ensures spends { OnOk result (Spends W.way (operation_pieces self.old.writer.core.size (operation_of operation.now)) self.old.writer.core self.new.writer.core well.old well.new) }
    {
        match operation {
            Op::Begin { trace } => {
                self.begin(*trace);
                Ok(())
            }
            Op::Point { moment, payload } => self.point(well, *moment, payload.as_slice()),
            Op::Crumb { node } => self.crumb(*node),
            Op::End => self.end(),
            Op::Trigger { trigger } => self.trigger(**trigger),
            Op::Sample {
                moment,
                auto,
                value,
            } => self.sample(rules, *moment, *auto, *value),
        }
    }

    /// Whether nothing waits.
    pub(crate) fn is_bare(&self) -> bool
        ensures { IsTrue result ↔ HasNothing (working_in self.now) }
    {
        self.writer.chunks.is_empty() && self.crumbs.is_empty() && self.triggers.is_empty()
    }

    /// Begins a trace.
    fn begin(&mut self, trace: TraceId)
        requires sound { IsSound self.old.writer.core }
        requires left { self.old.writer.core.counted < self.old.writer.core.calls }
        requires none { self.old.writer.core.trace ≡ None }
        ensures done { Does (Begin trace) (working_in self.old) (working_in self.new) }
        ensures spends { CountsOne self.old.writer.core self.new.writer.core }
    {
        one_operation_more();
        match self.writer.core.begin(trace) {
            Begun::Began => {}
            Begun::Spent | Begun::AlreadyOpen => unreachable!(),
        }
    }

    /// Records a payload.
    fn point<W: Well>(&mut self, well: &mut W, moment: u64, payload: &[u8]) -> Result<(), Memory>
        requires sound { IsSound self.old.writer.core }
        requires open { IsSome self.old.writer.core.trace }
        requires left { self.old.writer.core.counted + piece_count self.old.writer.core.size (length payload.now) ≤ self.old.writer.core.calls }
        requires ready { IsReadyFor W.way well.old self.old.writer.core.size (piece_count self.old.writer.core.size (length payload.now)) }
        ensures done { OnOk result (Does (Point moment payload.now) (working_in self.old) (working_in self.new)) }
        ensures spends { OnOk result (Spends W.way (piece_count self.old.writer.core.size (length payload.now)) self.old.writer.core self.new.writer.core well.old well.new) }
    {
        one_operation_more();
        self.writer.point(well, moment, payload)
    }

    /// Leaves a crumb: the open trace goes on at this node.
    fn crumb(&mut self, node: NodeId) -> Result<(), Memory>
        requires open { IsSome self.old.writer.core.trace }
        ensures done { OnOk result (Does (LeaveCrumb node) (working_in self.old) (working_in self.new)) }
        ensures core { self.new.writer ≡ self.old.writer }
    {
        one_operation_more();
        let Some(trace) = self.writer.core.trace() else {
            unreachable!()
        };
        self.crumbs.push_back(Crumb { trace, node })?;
        Ok(())
    }

    /// Ends the open trace.
    fn end(&mut self) -> Result<(), Memory>
        requires sound { IsSound self.old.writer.core }
        requires open { IsSome self.old.writer.core.trace }
        requires left { self.old.writer.core.counted < self.old.writer.core.calls }
        ensures done { OnOk result (Does End (working_in self.old) (working_in self.new)) }
        ensures spends { OnOk result (CountsOne self.old.writer.core self.new.writer.core) }
    {
        one_operation_more();
        self.writer.end()
    }

    /// Fires a trigger.
    fn trigger(&mut self, trigger: Trigger) -> Result<(), Memory>
        ensures done { OnOk result (Does (Fire trigger) (working_in self.old) (working_in self.new)) }
        ensures core { self.new.writer ≡ self.old.writer }
    {
        one_operation_more();
        self.triggers.push_back(trigger)?;
        Ok(())
    }

    /// Gives an autotrigger a value of the open trace, and fires the trigger id of its rule where the answer is so.
    fn sample(
        &mut self,
        rules: &[AutoRule],
        moment: u64,
        auto: u32,
        value: u64,
    ) -> Result<(), Memory>
        requires open { IsSome self.old.writer.core.trace }
        requires auto { (watch : Watch) × (slice_get self.old.autos.items auto ≡ Some watch) × (slice_get rules.now auto ≡ Some watch.rule) }
        ensures done { OnOk result (Does (Sample moment auto value) (working_in self.old) (working_in self.new)) }
        ensures core { self.new.writer ≡ self.old.writer }
    {
        one_operation_more();
        let Some(lead) = self.writer.core.trace() else {
            unreachable!()
        };
        let trigger = fired_by(&rules[auto as usize]);
        let autos = self.autos.as_mut_slice();
        match autos[auto as usize].sample(value, lead) {
            Sampled::Quiet => Ok(()),
            Sampled::Fired { laterals } => {
                self.triggers.push_back(Trigger {
                    moment,
                    trigger,
                    lead,
                    laterals,
                })?;
                Ok(())
            }
        }
    }
}

/// The trigger id that a rule fires.
fn fired_by(rule: &AutoRule) -> TriggerId
    ensures { result ≡ fired_by rule.now }
{
    match rule {
        AutoRule::Exception { trigger } => *trigger,
        AutoRule::Percentile { trigger, .. } => *trigger,
        AutoRule::Category { trigger, .. } => *trigger,
        AutoRule::Queue { trigger, .. } => *trigger,
    }
}
