//! An operation that is done with the client library.

ghost use Rattle.std.specs.Prelude.{◌≡◌};
ghost use Rattle.hs_base.specs.Rules.{fired_by};
ghost use Rattle.hs_live.specs.declared.called.Called.TheVariants.{Done};
ghost use Rattle.hs_live.specs.Done.{Does};
ghost use Rattle.hs_records.specs.Views.{operation_of};
ghost use Rattle.hs_run_actors.specs.Counting.{Uses};
ghost use Rattle.hs_run_actors.specs.Performing.{MayDo};

use hs_base::{AutoRule, TriggerId};
use hs_live::{Called, Client};
use hs_records::Op;

/// Does an operation that the client may do.
pub(crate) fn perform(client: &mut Client, rules: &[AutoRule], operation: &Op)
    requires { MayDo rules.now (operation_of operation.now) client.old }
    ensures done { Does (operation_of operation.now) Done client.old client.new }
    ensures uses { Uses (operation_of operation.now) client.old client.new }
{
    match operation {
        Op::Begin { trace } => expect_done(client.begin(*trace)),
        Op::Point { moment, payload } => expect_done(client.point(*moment, payload.as_slice())),
        Op::Crumb { node } => expect_done(client.crumb(*node)),
        Op::End => expect_done(client.end()),
        Op::Trigger { trigger } => expect_done(client.trigger(**trigger)),
        Op::Sample {
            moment,
            auto,
            value,
        } => {
            let trigger = fired_by(&rules[*auto as usize]);
            expect_done(client.sample(*moment, *auto, *value, trigger));
        }
    }
}

/// The call of an operation that may be done is done.
fn expect_done(called: Called)
    requires { called ≡ Done }
{
    match called {
        Called::Done => {}
        Called::Spent | Called::AlreadyOpen | Called::NoTrace | Called::TooWide => unreachable!(),
    }
}

/// The trigger id that a rule fires.
fn fired_by(rule: &AutoRule) -> TriggerId
    ensures { result ≡ fired_by rule.now }
{
    match rule {
        AutoRule::Exception { trigger } => *trigger,
        AutoRule::Percentile { trigger, .. } => *trigger,
        AutoRule::Category { trigger, .. } => *trigger,
        AutoRule::Queue { trigger, .. } => *trigger,
    }
}
