//! Steps of threads in an order that a gate brings about.

use crate::gated::{Row, assert_held, called};
use crate::hold::{At, Both, Hold};
use crate::inputs::{FOUR_SEGMENTS, TWO_CLIENTS, TWO_NODES, TWO_SEGMENTS};
use std::test::Fail;

/// The second client gets the only buffer, though the first one comes first.
const THE_SECOND_DRAWS_FIRST: Row = Row {
    name: "the second client draws first",
    input: TWO_CLIENTS,
    parts: &[
        "draws 0 0
empty 1
draws 0 1
got 0 0
",
        "ledger 2
0 0 0 0000000000000001 null 1
0 1 0 0000000000000002 live
total 2 live 1 reported 0 null 1 evicted 0 abandoned 0
done
",
    ],
};

/// The first client gets it, though the second one has come to its draw before.
const THE_FIRST_DRAWS_FIRST: Row = Row {
    name: "the first client draws first",
    input: TWO_CLIENTS,
    parts: &[
        "draws 0 0
got 0 0
draws 0 1
empty 1
",
    ],
};

/// The agent comes too late for the second draw, so it misses once before it gives the buffer back.
const A_GIVE_IS_MISSED: Row = Row {
    name: "a give is missed",
    input: TWO_SEGMENTS,
    parts: &[
        "draws 0 0
got 0 0
empty 1
log 0
chunk 0
turn
missed 2
given 3
coordinator
end
reports 0
ledger 2
0 0 0 0000000000000001 evicted 1 1
0 0 1 0000000000000002 null 1
total 2 live 0 reported 0 null 1 evicted 1 abandoned 0
done
",
    ],
};

/// The agent takes a chunk while its client stands between two operations.
const BOTH_AT_ONCE: Row = Row {
    name: "client and agent at once",
    input: FOUR_SEGMENTS,
    parts: &["ledger 4\n"],
};

/// The second round of two nodes.
const A_SECOND_ROUND: Row = Row {
    name: "a second round",
    input: TWO_NODES,
    parts: &["ledger 3\n"],
};

#[test]
fn a_client_waits_for_another(rt: HostRuntime) -> Result<(), Fail> {
    let hold = Hold::new(At { actor: 0, step: 1 }, At { actor: 1, step: 2 });
    assert_held(&rt, &["run"], &THE_SECOND_DRAWS_FIRST, &hold)?;
    assert!(rt; hold.was_kept());
    Ok(())
}

/// The second client comes to its point before the first one begins. A client that passed behind its operations would have drawn
/// by then.
#[test]
fn a_client_passes_before_it_draws(rt: HostRuntime) -> Result<(), Fail> {
    let both = Both {
        first: Hold::new(At { actor: 0, step: 0 }, At { actor: 1, step: 1 }),
        second: Hold::new(At { actor: 1, step: 1 }, At { actor: 0, step: 2 }),
    };
    assert_held(&rt, &["run"], &THE_FIRST_DRAWS_FIRST, &both)?;
    assert!(rt; both.first.was_kept());
    assert!(rt; both.second.was_kept());
    Ok(())
}

#[test]
fn an_agent_waits_for_its_client(rt: HostRuntime) -> Result<(), Fail> {
    let hold = Hold::new(At { actor: 1, step: 0 }, At { actor: 0, step: 5 });
    assert_held(&rt, &["run"], &A_GIVE_IS_MISSED, &hold)?;
    assert!(rt; hold.was_kept());
    Ok(())
}

/// Where one of the two has to end its round before the other begins, one of these holds breaks.
#[test]
fn each_waits_for_the_other(rt: HostRuntime) -> Result<(), Fail> {
    let both = Both {
        first: Hold::new(At { actor: 1, step: 0 }, At { actor: 0, step: 9 }),
        second: Hold::new(At { actor: 0, step: 9 }, At { actor: 1, step: 1 }),
    };
    assert_held(&rt, &["run"], &BOTH_AT_ONCE, &both)?;
    assert!(rt; both.first.was_kept());
    assert!(rt; both.second.was_kept());
    Ok(())
}

/// A client's first step of the second round is its fourth. The coordinator hears nothing in the first round, so its second pass is
/// its step 1.
#[test]
fn a_client_and_the_coordinator_meet_in_a_second_round(rt: HostRuntime) -> Result<(), Fail> {
    let both = Both {
        first: Hold::new(At { actor: 0, step: 3 }, At { actor: 4, step: 1 }),
        second: Hold::new(At { actor: 4, step: 1 }, At { actor: 0, step: 3 }),
    };
    assert_held(&rt, &["run"], &A_SECOND_ROUND, &both)?;
    assert!(rt; both.first.was_kept());
    assert!(rt; both.second.was_kept());
    Ok(())
}

/// Two clients, an agent and the coordinator have no actor 4.
#[test]
fn a_hold_to_which_nobody_comes_is_not_kept(rt: HostRuntime) -> Result<(), Fail> {
    let hold = Hold::new(At { actor: 4, step: 0 }, At { actor: 0, step: 1 });
    called(&rt, &["run"], TWO_CLIENTS, &hold)?;
    assert!(rt; !hold.was_kept());
    Ok(())
}

/// A client of three operations has no step 9.
#[test]
fn a_hold_that_waits_in_vain_is_not_kept(rt: HostRuntime) -> Result<(), Fail> {
    let hold = Hold::with_looks(At { actor: 0, step: 0 }, At { actor: 1, step: 9 }, 10);
    called(&rt, &["run"], TWO_CLIENTS, &hold)?;
    assert!(rt; !hold.was_kept());
    Ok(())
}
