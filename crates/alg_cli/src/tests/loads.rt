//! Runs of `load`, and words that are none.

use crate::status::Status;
use crate::top::run;
use alg_outside::{MemSink, MemSource};
use alg_universe::Rats;
use std::test::Fail;

/// Words, what is written for them, and how the run ends.
struct Row {
    shows: &'static str,
    words: &'static [&'static str],
    output: &'static str,
    status: Status,
}

const ROWS: [Row; 12] = [
    Row {
        shows: "no goal is one that is not proved",
        words: &["load", "0"],
        output: "load 0: 0 proved, 0 not\n",
        status: Status::Done,
    },
    Row {
        shows: "the first goal is proved",
        words: &["load", "1"],
        output: "load 1: 1 proved, 0 not\n",
        status: Status::Done,
    },
    Row {
        shows: "the second of each three is not",
        words: &["load", "10"],
        output: "load 10: 7 proved, 3 not\n",
        status: Status::NotAll,
    },
    Row {
        shows: "there may be 10,000 goals",
        words: &["load", "10000"],
        output: "load 10000: 6667 proved, 3333 not\n",
        status: Status::NotAll,
    },
    Row {
        shows: "and no more",
        words: &["load", "10001"],
        output: "usage\n",
        status: Status::Usage,
    },
    Row {
        shows: "nor as many as fit no machine",
        words: &["load", "18446744073709551617"],
        output: "usage\n",
        status: Status::Usage,
    },
    Row {
        shows: "zeros do not lead a number",
        words: &["load", "007"],
        output: "usage\n",
        status: Status::Usage,
    },
    Row {
        shows: "nor do they before a zero",
        words: &["load", "00"],
        output: "usage\n",
        status: Status::Usage,
    },
    Row {
        shows: "a number has no sign",
        words: &["load", "+1"],
        output: "usage\n",
        status: Status::Usage,
    },
    Row {
        shows: "a number has a digit",
        words: &["load", ""],
        output: "usage\n",
        status: Status::Usage,
    },
    Row {
        shows: "a number is wanted",
        words: &["load"],
        output: "usage\n",
        status: Status::Usage,
    },
    Row {
        shows: "and only one",
        words: &["load", "1", "1"],
        output: "usage\n",
        status: Status::Usage,
    },
];

#[test]
fn loaded_goals_are_counted_and_nothing_is_read(rt: HostRuntime) -> Result<(), Fail> {
    for row in ROWS.as_slice() {
        let words = super::words_of(rt.alloc(), row.words)?;
        let fails = vec![in rt.alloc(); 1u64]?;
        let mut source = MemSource::new(Vec::new(rt.alloc()), 1, fails);
        let mut sink = MemSink::new(rt.alloc(), 1000, 1000, Vec::new(rt.alloc()))?;
        let status = run::<Rats, _, _>(rt.alloc(), words.as_slice(), &mut source, &mut sink);
        let shows = row.shows;
        assert_eq!(rt; sink.bytes(), row.output.as_bytes(), "{shows}");
        assert_eq!(rt; status, row.status, "{shows}");
    }
    Ok(())
}
