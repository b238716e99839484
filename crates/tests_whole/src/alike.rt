//! What is the same in each run of a workload, whatever its threads decide.

use crate::gated::{Row, assert_run};
use crate::inputs::{
    A_BUFFER_COMES_BACK, A_FULL_PAGE, A_TRIGGER_ALONE, AN_EMPTY_PAYLOAD, CRUMBS, NO_PINS,
    ONE_CLAIM, ONE_TOKEN, TWO_TRIGGERS,
};
use std::test::Fail;

const ROWS: [Row; 9] = [
    Row {
        name: "an empty payload",
        input: AN_EMPTY_PAYLOAD,
        parts: &[
            "journal 1 1 1
draws 0 0
got 0 0
log 0
",
            "coordinator
end
reports 0
ledger 1
0 0 0 0000000000000001 live
total 1 live 1 reported 0 null 0 evicted 0 abandoned 0
done
",
        ],
    },
    Row {
        name: "a full page",
        input: A_FULL_PAGE,
        parts: &[
            "journal 1 1 1
draws 0 0
got 0 0
empty 1
log 0
",
            "coordinator
end
reports 0
ledger 3
0 0 0 0000000000000001 live
0 0 1 0000000000000001 live
0 0 2 0000000000000001 null 1
total 3 live 2 reported 0 null 1 evicted 0 abandoned 0
done
",
        ],
    },
    Row {
        name: "a buffer comes back",
        input: A_BUFFER_COMES_BACK,
        parts: &[
            "journal 1 1 1
draws 0 0
got 0 0
got 0 2
log 0
",
            "coordinator
told 0
end
reports 1
report 0000000000000001
0 0 1 3 bb
gap 0 0 0 evicted 1 1
ledger 2
0 0 0 0000000000000001 evicted 1 1
0 0 1 0000000000000001 reported 1 0000000000000001
total 2 live 0 reported 1 null 0 evicted 1 abandoned 0
done
",
        ],
    },
    Row {
        name: "two triggers",
        input: TWO_TRIGGERS,
        parts: &[
            "coordinator
told 0
told 0
end
reports 1
report 0000000000000001
0 0 0 4 aa
ledger 1
0 0 0 0000000000000001 reported 1 0000000000000001
total 1 live 0 reported 1 null 0 evicted 0 abandoned 0
done
",
        ],
    },
    Row {
        name: "one token",
        input: ONE_TOKEN,
        parts: &[
            "ledger 3
0 0 0 0000000000000001 reported 1 0000000000000001
0 0 1 0000000000000002 live
0 0 2 0000000000000003 reported 1 0000000000000003
total 3 live 1 reported 2 null 0 evicted 0 abandoned 0
done
",
        ],
    },
    Row {
        name: "crumbs",
        input: CRUMBS,
        parts: &[
            "reports 1
report 0000000000000001
0 0 0 1 aa
1 0 0 1 aa
2 0 0 1 aa
gap 3 0 0 live
ledger 4
0 0 0 0000000000000001 reported 1 0000000000000001
1 0 0 0000000000000001 reported 1 0000000000000001
2 0 0 0000000000000001 reported 1 0000000000000001
3 0 0 0000000000000001 live
total 4 live 1 reported 3 null 0 evicted 0 abandoned 0
done
",
        ],
    },
    Row {
        name: "one claim",
        input: ONE_CLAIM,
        parts: &[
            "reports 1
report 0000000000000001
0 0 0 5 aa
ledger 1
0 0 0 0000000000000001 reported 1 0000000000000001
total 1 live 0 reported 1 null 0 evicted 0 abandoned 0
done
",
        ],
    },
    Row {
        name: "no pins",
        input: NO_PINS,
        parts: &[
            "coordinator
told 0
end
reports 1
report 0000000000000000
gap 0 0 0 abandoned 1 0000000000000000 e220a8397b1dcdaf
gap 0 0 1 abandoned 1 0000000000000000 e220a8397b1dcdaf
ledger 2
0 0 0 0000000000000000 abandoned 1 0000000000000000 e220a8397b1dcdaf
0 0 1 0000000000000000 abandoned 1 0000000000000000 e220a8397b1dcdaf
total 2 live 0 reported 0 null 0 evicted 0 abandoned 2
done
",
        ],
    },
    Row {
        name: "a trigger alone",
        input: A_TRIGGER_ALONE,
        parts: &[
            "coordinator
told 0
end
reports 0
ledger 0
total 0 live 0 reported 0 null 0 evicted 0 abandoned 0
done
",
        ],
    },
];

const AS_JSON: [Row; 2] = [
    Row {
        name: "a full page",
        input: A_FULL_PAGE,
        parts: &["reports 0\n[]\nledger 3\n"],
    },
    Row {
        name: "one claim",
        input: ONE_CLAIM,
        parts: &[
            "reports 1\n[{\"gaps\":[],\"records\":[[0,0,0,5,\"aa\"]],\"trace\":\"0000000000000001\"}]\nledger 1\n",
        ],
    },
];

#[test]
fn runs_that_come_to_the_same(rt: HostRuntime) -> Result<(), Fail> {
    for row in &ROWS {
        assert_run(&rt, &["run"], row)?;
    }
    Ok(())
}

/// The flag may stand before the command too.
#[test]
fn reports_as_json(rt: HostRuntime) -> Result<(), Fail> {
    let words: [&[&str]; 2] = [&["run", "--json"], &["--json", "run"]];
    for row in &AS_JSON {
        for line in words {
            assert_run(&rt, line, row)?;
        }
    }
    Ok(())
}
