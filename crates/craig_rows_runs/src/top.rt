//! Rows of `craig_top`: scripts with their replies, and runs whose reads and writes fail.

use craig_io::{Failed, MemSink, MemSource, Source};
use craig_top::{Settings, Status, craig_top, run_script};
use std::alloc::{AllocError, Global};
use std::test::Fail;

/// A script, and what has to be put for it.
#[derive(Clone, Copy)]
struct Row {
    /// What the row shows.
    shows: &'static str,
    /// The bytes of the script.
    script: &'static [u8],
    /// All replies, one behind the other.
    replies: &'static [u8],
}

/// The first row, which other tests run too.
const UNSATISFIABLE: Row = Row {
    shows: "two units that contradict each other",
    script: b"add 1 1 0\nadd 2 -1 0\nsolve 0\n",
    replies: b"ok\nok\ns UNSATISFIABLE\nf 0\na 42\naag 1 1 0 3 0\n2\n1\n2\n0\ni0 1\no0 0\no1 1\no2 2\n",
};

/// Scripts that are read to their end.
const ROWS: [Row; 38] = [
    UNSATISFIABLE,
    Row {
        shows: "a cut variable alone, where an expansion over local ones would keep the input 2",
        script: b"add 1 1 0\nadd 1 2 0\nadd 2 -1 0\nadd 2 2 3 0\nsolve 0\n",
        replies: b"ok\nok\nok\nok\ns UNSATISFIABLE\nf 0\na 42\naag 1 1 0 3 0\n2\n1\n2\n0\ni0 1\no0 0\no1 1\no2 2\n",
    },
    Row {
        shows: "an empty script",
        script: b"",
        replies: b"",
    },
    Row {
        shows: "no clause, and no newline at the end",
        script: b"solve 0",
        replies: b"s SATISFIABLE\nv 0\n",
    },
    Row {
        shows: "the empty clause",
        script: b"add 2 0\nsolve 0\n",
        replies: b"ok\ns UNSATISFIABLE\nf 0\na 35\naag 0 0 0 3 0\n1\n1\n0\no0 0\no1 1\no2 2\n",
    },
    Row {
        shows: "the empty clause on the other side of the cut",
        script: b"add 1 0\nsolve 0\n",
        replies: b"ok\ns UNSATISFIABLE\nf 0\na 35\naag 0 0 0 3 0\n1\n0\n0\no0 0\no1 1\no2 2\n",
    },
    Row {
        shows: "a tautology names its variables, and the first phase is false",
        script: b"add 1 1 -1 0\nadd 1 2147483647 0\nsolve 0\n",
        replies: b"ok\nok\ns SATISFIABLE\nv -1 2147483647 0\n",
    },
    Row {
        shows: "by rising variable, however they were named",
        script: b"add 1 7 0\nadd 2 -3 5 0\nadd 1 3 0\nsolve 0\n",
        replies: b"ok\nok\nok\ns SATISFIABLE\nv 3 5 7 0\n",
    },
    Row {
        shows: "several solves, each over what is accepted by then",
        script: b"add 1 1 2 0\nsolve 0\nadd 2 -2 0\nsolve 0\nadd 1 -1 0\nsolve 0\nsolve 0\n",
        replies: b"ok\ns SATISFIABLE\nv -1 2 0\nok\ns SATISFIABLE\nv 1 -2 0\nok\ns UNSATISFIABLE\nf 0\na 42\naag 1 1 0 3 0\n2\n1\n2\n0\ni0 2\no0 0\no1 1\no2 2\ns UNSATISFIABLE\nf 0\na 42\naag 1 1 0 3 0\n2\n1\n2\n0\ni0 2\no0 0\no1 1\no2 2\n",
    },
    Row {
        shows: "two refuted branches before the only model",
        script: b"add 1 1 2 3 0\nadd 1 1 2 -3 0\nadd 2 1 -2 3 0\nadd 2 1 -2 -3 0\nadd 1 -1 -2 0\nadd 2 -1 -3 0\nsolve 0\n",
        replies: b"ok\nok\nok\nok\nok\nok\ns SATISFIABLE\nv 1 -2 -3 0\n",
    },
    Row {
        shows: "comments, blank lines, separators",
        script: b"# a comment\n\n  add   1 5 0\r\n\t\n #add 1 1 0\n",
        replies: b"ok\n",
    },
    Row {
        shows: "parts are tested before variables, and refused lines change nothing",
        script: b"add 3 1 0\nadd 1 2147483648 0\nadd 3 2147483648 0\nadd 1 1\nadd 1 1 0\nsolve 0\n",
        replies: b"e 3\ne 4\ne 3\ne 1\nok\ns SATISFIABLE\nv 1 0\n",
    },
    Row {
        shows: "what is outside of the grammar",
        script: b"add\nadd 1\nAdd 1 0\nadd 1 -0 0\nadd 1 +1 0\nadd 1 01 0\nadd 1 1 0 0\nsolve\nsolve 0 0\nsolve 1 2\nsimplify\n\x00\n\xff\xfe\n",
        replies: b"e 1\ne 1\ne 1\ne 1\ne 1\ne 1\ne 1\ne 1\ne 1\ne 1\ne 1\ne 1\ne 1\n",
    },
    Row {
        shows: "eighteen digits are a number and nineteen are none",
        script: b"add 1 999999999999999999 0\nadd 1 1000000000000000000 0\nadd 999999999999999999 1 0\n",
        replies: b"e 4\ne 1\ne 3\n",
    },
    Row {
        shows: "one part alone",
        script: b"parts 1\nadd 1 3 0\nadd 1 -3 0\nsolve 0\n",
        replies: b"ok\nok\nok\ns UNSATISFIABLE\nf 0\na 28\naag 0 0 0 2 0\n1\n0\no0 0\no1 1\n",
    },
    Row {
        shows: "inputs by rising variable, however they are named and used",
        script: b"parts 3\nadd 1 2 0\nadd 2 1 -2 0\nadd 3 -1 0\nsolve 0\n",
        replies: b"ok\nok\nok\nok\ns UNSATISFIABLE\nf 0\na 56\naag 2 2 0 4 0\n2\n4\n1\n4\n2\n0\ni0 1\ni1 2\no0 0\no1 1\no2 2\no3 3\n",
    },
    Row {
        shows: "refusals of parts, marks and cuts change nothing",
        script: b"parts 0\nparts 4097\nmark 0 a\ncuts 3\ncuts 1 1\ncuts 2 0\ncuts\nadd 1 1 0\nparts 4097\nparts 2\nsolve 0\n",
        replies: b"e 3\ne 3\ne 4\ne 7\ne 7\ne 7\ne 1\nok\ne 5\ne 5\ns SATISFIABLE\nv 1 0\n",
    },
    Row {
        shows: "three systems beside one another",
        script: b"system all\nadd 1 1 0\nadd 2 -1 0\nsolve 0\n",
        replies: b"ok\nok\nok\ns UNSATISFIABLE\nf 0\na 93\naag 1 1 0 9 0\n2\n1\n2\n0\n1\n2\n0\n1\n2\n0\ni0 1\no0 m0\no1 m1\no2 m2\no3 p0\no4 p1\no5 p2\no6 i0\no7 i1\no8 i2\n",
    },
    Row {
        shows: "the inverse system",
        script: b"system inverse\nadd 1 1 2 0\nadd 1 -1 0\nadd 2 -2 0\nsolve 0\n",
        replies: b"ok\nok\nok\nok\ns UNSATISFIABLE\nf 0\na 42\naag 1 1 0 3 0\n2\n1\n2\n0\ni0 2\no0 0\no1 1\no2 2\n",
    },
    Row {
        shows: "a common clause and side B",
        script: b"add 0 1 0\nadd 2 -1 0\nsolve 0\n",
        replies: b"ok\nok\ns UNSATISFIABLE\nf 0\na 35\naag 0 0 0 3 0\n1\n1\n0\no0 0\no1 1\no2 2\n",
    },
    Row {
        shows: "side A and a common clause",
        script: b"add 1 1 0\nadd 0 -1 0\nsolve 0\n",
        replies: b"ok\nok\ns UNSATISFIABLE\nf 0\na 42\naag 1 1 0 3 0\n2\n1\n2\n0\ni0 1\no0 0\no1 1\no2 2\n",
    },
    Row {
        shows: "the empty clause on both sides",
        script: b"add 0 0\nsolve 0\n",
        replies: b"ok\ns UNSATISFIABLE\nf 0\na 35\naag 0 0 0 3 0\n1\n1\n0\no0 0\no1 1\no2 2\n",
    },
    Row {
        shows: "two assumptions that contradict each other",
        script: b"solve 1 7 2 -7 0\n",
        replies: b"s UNSATISFIABLE\nf 7 -7 0\na 42\naag 1 1 0 3 0\n2\n1\n2\n0\ni0 7\no0 0\no1 1\no2 2\n",
    },
    Row {
        shows: "an assumption that isn't needed is not named, and none stands for the solve after it",
        script: b"add 1 -1 2 0\nadd 2 -2 0\nsolve 1 9 1 1 0\nsolve 0\n",
        replies: b"ok\nok\ns UNSATISFIABLE\nf 1 0\na 42\naag 1 1 0 3 0\n2\n1\n2\n0\ni0 2\no0 0\no1 1\no2 2\ns SATISFIABLE\nv -1 -2 0\n",
    },
    Row {
        shows: "a literal that is assumed in two parts fails in the first",
        script: b"solve 1 3 2 3 1 -3 0\n",
        replies: b"s UNSATISFIABLE\nf 3 -3 0\na 35\naag 0 0 0 3 0\n1\n0\n0\no0 0\no1 1\no2 2\n",
    },
    Row {
        shows: "assumptions of part 0 are on both sides",
        script: b"solve 0 3 0 -3 0\n",
        replies: b"s UNSATISFIABLE\nf 3 -3 0\na 35\naag 0 0 0 3 0\n1\n1\n0\no0 0\no1 1\no2 2\n",
    },
    Row {
        shows: "an assumption that contradicts a clause fails alone, and a model has the variables of all",
        script: b"add 1 1 0\nsolve 1 5 2 -1 0 -1 0\nsolve 1 5 2 5 1 -6 0\n",
        replies: b"ok\ns UNSATISFIABLE\nf -1 0\na 42\naag 1 1 0 3 0\n2\n1\n2\n0\ni0 1\no0 0\no1 1\no2 2\ns SATISFIABLE\nv 1 5 -6 0\n",
    },
    Row {
        shows: "parts of assumptions are tested before their variables",
        script: b"solve 1 2147483648 3 1 0\nsolve 1 2147483648 0\nsolve 1 2 3 0\nsolve 0\n",
        replies: b"e 3\ne 4\ne 1\ns SATISFIABLE\nv 0\n",
    },
    Row {
        shows: "a chosen cut",
        script: b"cuts 1\nadd 1 1 0\nadd 2 -1 0\nsolve 0\n",
        replies: b"ok\nok\nok\ns UNSATISFIABLE\nf 0\na 28\naag 1 1 0 1 0\n2\n2\ni0 1\no0 1\n",
    },
    Row {
        shows: "another number of parts chooses all cuts",
        script: b"parts 4096\ncuts 0 4096\nparts 1\nadd 1 0\nsolve 0\n",
        replies: b"ok\nok\nok\nok\ns UNSATISFIABLE\nf 0\na 28\naag 0 0 0 2 0\n1\n0\no0 0\no1 1\n",
    },
    Row {
        shows: "interpolants as clauses",
        script: b"format cnf\nadd 1 1 0\nadd 2 -1 0\nsolve 0\n",
        replies: b"ok\nok\nok\ns UNSATISFIABLE\nf 0\na 34\nc o 0 T\nc o 1 1\nc o 2 F\np cnf 1 0\n",
    },
    Row {
        shows: "a gate as clauses, its variable above an assumption that isn't named",
        script: b"system mcmillan\ncuts 1\nformat cnf\nadd 1 1 0\nadd 1 2 0\nadd 2 -1 -2 0\nsolve 1 9 0\n",
        replies: b"ok\nok\nok\nok\nok\nok\ns UNSATISFIABLE\nf 0\na 47\nc o 1 10\np cnf 10 3\n-10 2 0\n-10 1 0\n10 -2 -1 0\n",
    },
    Row {
        shows: "interpolants in AIGER's binary form",
        script: b"format aig\nadd 1 1 0\nadd 2 -1 0\nsolve 0\n",
        replies: b"ok\nok\nok\ns UNSATISFIABLE\nf 0\na 40\naig 1 1 0 3 0\n1\n2\n0\ni0 1\no0 0\no1 1\no2 2\n",
    },
    Row {
        shows: "a gate in AIGER's binary form",
        script: b"system mcmillan\ncuts 1\nformat aig\nadd 1 1 0\nadd 1 2 0\nadd 2 -1 -2 0\nsolve 0\n",
        replies: b"ok\nok\nok\nok\nok\nok\ns UNSATISFIABLE\nf 0\na 33\naig 3 2 0 1 1\n6\n\x02\x02i0 1\ni1 2\no0 1\n",
    },
    Row {
        shows: "formats, and what is none",
        script: b"format\nformat dimacs\nformat cnf cnf\nformat CNF\nformat cnf\nformat aig\nformat aag\n",
        replies: b"e 1\ne 1\ne 1\ne 1\nok\nok\nok\n",
    },
    Row {
        shows: "limits, and what is none",
        script: b"limit 0\nlimit 100001\nlimit\nlimit none\nlimit 100000\nlimit 1 2\nlimit 01\nlimit all\n",
        replies: b"e 6\ne 6\ne 1\nok\nok\ne 1\ne 1\ne 1\n",
    },
    Row {
        shows: "the only lemma that an assumption leads to, which stays",
        script: b"limit 1\nadd 1 1 2 0\nadd 1 1 -2 0\nsolve 2 -1 0\nsolve 2 -1 0\n",
        replies: b"ok\nok\nok\ns UNKNOWN 1\nl 1 0\ns UNSATISFIABLE\nf -1 0\na 42\naag 1 1 0 3 0\n2\n1\n2\n0\ni0 1\no0 0\no1 1\no2 2\n",
    },
    Row {
        shows: "a limit of one, and clauses that propagation refutes",
        script: b"limit 1\nadd 1 1 0\nadd 2 -1 0\nsolve 0\n",
        replies: b"ok\nok\nok\ns UNSATISFIABLE\nf 0\na 42\naag 1 1 0 3 0\n2\n1\n2\n0\ni0 1\no0 0\no1 1\no2 2\n",
    },
];

/// Three pigeons and two holes: each pigeon is in a hole by part 1, and part 2 puts no two into one.
const PIGEONS: &[u8] =
    b"add 1 1 2 0\nadd 1 3 4 0\nadd 1 5 6 0\nadd 2 -1 -3 0\nadd 2 -1 -5 0\nadd 2 -3 -5 0\nadd 2 -2 -4 0\nadd 2 -2 -6 0\nadd 2 -4 -6 0\nsolve 0\n";

/// How a script comes, and where its run stops.
#[derive(Clone, Copy)]
struct Way {
    /// How many bytes a read gives and a write takes at most.
    pieces: (usize, usize),
    /// The number of the read that fails, or 0.
    read_fails: u64,
    /// The number of the write that fails, or 0.
    write_fails: u64,
    /// How many bytes the script has to be shorter than.
    bound: u64,
}

/// All at once, and nothing fails.
const AT_ONCE: Way = Way {
    pieces: (65536, 65536),
    read_fails: 0,
    write_fails: 0,
    bound: 4294967296,
};

/// How a run ended, and what it put.
#[derive(Drop)]
struct Ending {
    /// The status of the run.
    status: Status,
    /// What the sink holds.
    put: Vec<u8>,
    /// The most bytes that a read asked for.
    asked: usize,
    /// How many reads there were.
    reads: u64,
}

/// A source that notes what it is asked for.
#[derive(Drop)]
struct Noting {
    inner: MemSource,
    asked: usize,
    reads: u64,
}

impl Source for Noting {
    ghost use Rattle.std.specs.Prelude.{Some};

    ghost remaining = { λ s. Some s.inner.left };

    ghost faults = { λ s. s.inner.calls.faults };

    fn read(&mut self, into: &mut [u8]) -> Result<usize, Failed> {
        self.asked = self.asked.max(into.len());
        self.reads = self.reads.saturating_add(1);
        self.inner.read(into)
    }
}

/// Runs a script in a way.
fn run(alloc: Global, script: &[u8], way: Way) -> Result<Ending, AllocError> {
    let bytes = Vec::from_slice(alloc, script)?;
    let mut source = Noting {
        inner: MemSource::new(bytes, way.pieces.0.max(1), vec![in alloc; way.read_fails]?),
        asked: 0,
        reads: 0,
    };
    let fails = vec![in alloc; way.write_fails]?;
    let mut sink = MemSink::new(alloc, 65536, way.pieces.1.max(1), fails)?;
    let bound = way.bound.max(1);
    let status = run_script(alloc, Settings::start(), bound, &mut source, &mut sink);
    Ok(Ending {
        status,
        put: Vec::from_slice(alloc, sink.bytes())?,
        asked: source.asked,
        reads: source.reads,
    })
}

/// A line of so many bytes, and behind it a solve.
fn long_line(alloc: Global, first: u8, len: usize) -> Result<Vec<u8>, AllocError> {
    let mut script = vec![in alloc; b'x'; len]?;
    if let Some(byte) = script.first_mut() {
        *byte = first;
    }
    script.extend_from_slice(b"\nsolve 0")?;
    Ok(script)
}

#[test]
fn each_line_has_its_reply_in_any_pieces(rt: HostRuntime) -> Result<(), Fail> {
    for row in &ROWS {
        for pieces in [(1, 65536), (7, 65536), (65536, 65536), (65536, 1)] {
            let ending = run(rt.alloc(), row.script, Way { pieces, ..AT_ONCE })?;
            assert_eq!(rt; ending.put.as_slice(), row.replies, "{}", row.shows);
        }
    }
    Ok(())
}

/// Variable 1 is on side A alone in the first refutation, and on both sides in the second.
const SHARED_LATER: &[u8] =
    b"system mcmillan\nadd 1 1 2 0\nadd 1 -1 2 0\nadd 1 1 -2 0\nadd 1 -1 -2 3 0\nsolve 2 -3 0\nadd 2 -1 -3 0\nsolve 0\n";

#[test]
fn a_variable_is_shared_from_a_later_clause_on(rt: HostRuntime) -> Result<(), Fail> {
    let ending = run(rt.alloc(), SHARED_LATER, AT_ONCE)?;
    let begins = ending.put.as_slice().starts_with(
        b"ok\nok\nok\nok\nok\ns UNSATISFIABLE\nf -3 0\na 42\naag 1 1 0 3 0\n2\n1\n2\n0\ni0 3\no0 0\no1 1\no2 2\nok\ns UNSATISFIABLE\nf 0\na ",
    );
    assert!(rt; begins);
    let has_both = ending
        .put
        .as_slice()
        .ends_with(b"i0 1\ni1 3\no0 0\no1 1\no2 2\n");
    assert!(rt; has_both);
    Ok(())
}

#[test]
fn pigeons_are_refuted_by_search(rt: HostRuntime) -> Result<(), Fail> {
    let ending = run(rt.alloc(), PIGEONS, AT_ONCE)?;
    let begins = ending.put.as_slice().starts_with(
        b"ok\nok\nok\nok\nok\nok\nok\nok\nok\ns UNSATISFIABLE\nf 0\na ",
    );
    assert!(rt; begins);
    Ok(())
}

#[test]
fn a_line_is_overlong_from_1048577_bytes_on(rt: HostRuntime) -> Result<(), Fail> {
    let rows: [(u8, usize, &[u8]); 4] = [
        (b'x', 1048576, b"e 1\ns SATISFIABLE\nv 0\n"),
        (b'x', 1048577, b"e 2\ns SATISFIABLE\nv 0\n"),
        (b'#', 1048576, b"s SATISFIABLE\nv 0\n"),
        (b'#', 1048577, b"e 2\ns SATISFIABLE\nv 0\n"),
    ];
    for (first, len, replies) in &rows {
        let script = long_line(rt.alloc(), *first, *len)?;
        let ending = run(rt.alloc(), &script, AT_ONCE)?;
        assert_eq!(rt; ending.put.as_slice(), *replies, "{len} bytes from {first}");
    }
    Ok(())
}

// At a bound or a failure, and the reads that there were: each asks for at most 65536 bytes and for no more than are
// left to the bound, and none comes before the replies to what was read are put.
#[test]
fn a_run_stops_where_it_has_to(rt: HostRuntime) -> Result<(), Fail> {
    let rows: [(Way, Status, &[u8], usize, u64); 8] = [
        (AT_ONCE, Status::Done, UNSATISFIABLE.replies, 65536, 2),
        (
            way_of(65536, 65536, 0, 0, 10),
            Status::TooLong,
            b"ok\n",
            10,
            1,
        ),
        (
            way_of(65536, 65536, 0, 0, 29),
            Status::TooLong,
            UNSATISFIABLE.replies,
            29,
            1,
        ),
        (
            way_of(65536, 65536, 0, 0, 30),
            Status::Done,
            UNSATISFIABLE.replies,
            30,
            2,
        ),
        (
            way_of(16, 65536, 2, 0, 4294967296),
            Status::ReadFault,
            b"ok\n",
            65536,
            2,
        ),
        (
            way_of(10, 65536, 0, 1, 4294967296),
            Status::WriteFault,
            b"",
            65536,
            1,
        ),
        (
            way_of(10, 65536, 0, 2, 4294967296),
            Status::WriteFault,
            b"ok\n",
            65536,
            3,
        ),
        (
            way_of(65536, 4, 0, 4, 4294967296),
            Status::WriteFault,
            b"ok\nok\ns UNSA",
            65536,
            1,
        ),
    ];
    for (way, status, put, asked, reads) in &rows {
        let ending = run(rt.alloc(), UNSATISFIABLE.script, *way)?;
        let same = ending.status == *status && ending.asked == *asked && ending.reads == *reads;
        assert!(rt; same, "{asked} {reads}");
        assert_eq!(rt; ending.put.as_slice(), *put, "{asked} {reads}");
    }
    Ok(())
}

/// A way by its numbers.
fn way_of(given: usize, taken: usize, read_fails: u64, write_fails: u64, bound: u64) -> Way {
    Way {
        pieces: (given, taken),
        read_fails,
        write_fails,
        bound,
    }
}

#[test]
fn words_are_refused(rt: HostRuntime) -> Result<(), Fail> {
    let alloc = rt.alloc();
    let rows: [&[&str]; 5] = [
        &["--wrong"],
        &["--limit", "0"],
        &["--gen", "61"],
        &["--gen", "1", "--gen", "1"],
        &["--"],
    ];
    for row in &rows {
        let ending = end_with(alloc, row, UNSATISFIABLE.script)?;
        let refused = ending.0 == 1 && ending.1.is_empty();
        assert!(rt; refused);
    }
    Ok(())
}

/// The number of the status and the bytes put by a run with the words.
fn end_with(alloc: Global, row: &[&str], script: &[u8]) -> Result<(u8, Vec<u8>), AllocError> {
    let mut words = Vec::new(alloc);
    for word in row {
        words.push(String::from_str(alloc, word)?)?;
    }
    let bytes = Vec::from_slice(alloc, script)?;
    let mut source = MemSource::new(bytes, 3, Vec::new(alloc));
    let mut sink = MemSink::new(alloc, 65536, 65536, Vec::new(alloc))?;
    let status = craig_top(alloc, &words, &mut source, &mut sink);
    Ok((status.number(), Vec::from_slice(alloc, sink.bytes())?))
}

#[test]
fn words_set_how_a_script_begins(rt: HostRuntime) -> Result<(), Fail> {
    let rows: [(&[&str], &[u8]); 2] = [
        (
            &["--format", "cnf"],
            b"ok\nok\ns UNSATISFIABLE\nf 0\na 34\nc o 0 T\nc o 1 1\nc o 2 F\np cnf 1 0\n",
        ),
        (
            &["--limit=none", "--system", "mcmillan"],
            UNSATISFIABLE.replies,
        ),
    ];
    for (words, replies) in &rows {
        let ending = end_with(rt.alloc(), words, UNSATISFIABLE.script)?;
        let answered = ending.0 == 0 && ending.1.as_slice() == *replies;
        assert!(rt; answered);
    }
    Ok(())
}

#[test]
fn a_generated_script_has_a_summary_and_a_reply(rt: HostRuntime) -> Result<(), Fail> {
    let rows: [(&[&str], &[u8]); 3] = [
        (
            &["--gen", "1"],
            b"gen 1\nparts 2\nclauses 55\nvariables 21\ncuts 3\ns UNSATISFIABLE\nf 0\na ",
        ),
        (
            &["--gen=1"],
            b"gen 1\nparts 2\nclauses 55\nvariables 21\ncuts 3\ns UNSATISFIABLE\nf 0\na ",
        ),
        (
            &["--gen", "3"],
            b"gen 3\nparts 4\nclauses 148\nvariables 49\ncuts 5\ns UNSATISFIABLE\nf 0\na ",
        ),
    ];
    for (words, begin) in &rows {
        let ending = end_with(rt.alloc(), words, b"")?;
        let answered = ending.0 == 0 && ending.1.starts_with(begin);
        assert!(rt; answered);
    }
    Ok(())
}

#[test]
fn a_status_has_its_line(rt: HostRuntime) {
    let rows: [(Status, &str); 5] = [
        (
            Status::Usage,
            "usage: craig [--system WORD] [--format WORD] [--limit N|none] [--gen N]",
        ),
        (
            Status::ReadFault,
            "craig: a read failed; the replies to the lines before it stand",
        ),
        (
            Status::WriteFault,
            "craig: a write failed; the replies before it stand",
        ),
        (
            Status::TooLong,
            "craig: the script has 4294967296 bytes or more; the replies so far stand",
        ),
        (
            Status::NoMemory,
            "craig: memory ran out; the replies so far stand",
        ),
    ];
    let said = rows
        .iter()
        .all(|(status, line)| status.message() == Some(*line));
    assert!(rt; said);
}
