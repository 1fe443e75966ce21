//! What each answer prints, and its exit status.

ghost use Rattle.std.specs.Prelude.{false};
ghost use Rattle.edge_traits.specs.Told.{told};

use crate::same::{same, same_bytes};
use edge_traits::{EdgeFault, Sink};
use farm_answers::{Refusal, Text, class_line, list_hosts, refuse};
use farm_options::{CommandName, help_text, version_text};
use farm_types::Bytes;
use job_list::JobFault;
use std::alloc::{AllocError, Global};
use std::process::Abort;
use std::test::Fail;

/// A sink that shows what it got.
#[derive(Drop)]
struct Page {
    text: Bytes,
}

impl Sink for Page {
    ghost shows = { λ page. record { written = told page.text; stopped = false; faults = 0 } };

    fn write(&mut self, piece: &[u8]) -> Result<usize, EdgeFault> {
        match self.text.try_extend(piece) {
            Ok(()) => Ok(piece.len()),
            Err(_) => Err(EdgeFault::Memory),
        }
    }
}

fn empty_page(alloc: Global) -> Page {
    Page {
        text: Bytes::new(alloc),
    }
}

/// An answer to ask for. Words have single blanks between them.
#[derive(Clone, Copy)]
enum Ask {
    Hosts(&'static str),
    Jobs(u32, JobFault),
    Period,
    Scan(&'static str),
    Words(usize),
    Unread,
    Help(Option<CommandName>),
    Version,
}

fn words_of(alloc: Global, line: &str) -> Result<Vec<String>, AllocError> {
    let mut words = Vec::new(alloc);
    for word in line.split(' ') {
        words.push(String::from_str(alloc, word)?)?;
    }
    Ok(words)
}

/// The text that is asked for, or why there is none.
fn text_for(alloc: Global, ask: Ask) -> Result<Result<Text, Refusal>, AllocError> {
    Ok(match ask {
        Ask::Hosts(text) => list_hosts(alloc, text.as_bytes()),
        Ask::Jobs(line, fault) => Err(Refusal::Jobs {
            line,
            fault,
            text: Bytes::new(alloc),
        }),
        Ask::Period => Err(Refusal::Period),
        Ask::Scan(line) => Ok(Text::Made(class_line(alloc, words_of(alloc, line)?.as_slice())?)),
        Ask::Words(place) => Err(Refusal::Words { place }),
        Ask::Unread => Err(Refusal::Unread),
        Ask::Help(name) => Ok(Text::Fixed(help_text(name))),
        Ask::Version => Ok(Text::Fixed(version_text())),
    })
}

fn answer<S: Sink>(alloc: Global, ask: Ask, out: &mut S, err: &mut S) -> Result<u8, AllocError> {
    Ok(match text_for(alloc, ask)? {
        Ok(text) => farm_answers::answer(&text, out, err),
        Err(refusal) => refuse(alloc, &refusal, out, err),
    })
}

/// What is asked, the exit status, and what is printed on each sink.
struct Row {
    ask: Ask,
    status: u8,
    out: &'static str,
    err: &'static str,
}

const ROWS: &[Row] = &[
    Row {
        ask: Ask::Hosts("red/2:4000 blue:4001/3 # x"),
        status: 0,
        out: "red:4000/2\nblue:4001/3\n--localslots=4\n--localslots_cpp=8\n",
        err: "",
    },
    Row {
        ask: Ask::Hosts("localhost --randomize"),
        status: 0,
        out: "localhost/2\n--localslots=4\n--localslots_cpp=8\n--randomize\n",
        err: "",
    },
    Row {
        ask: Ask::Hosts("@red"),
        status: 106,
        out: "",
        err: "farm: host list: fault 1 at byte 0\n",
    },
    Row {
        ask: Ask::Hosts("red blue:0"),
        status: 106,
        out: "",
        err: "farm: host list: fault 4 at byte 9\n",
    },
    Row {
        ask: Ask::Jobs(0, JobFault::NoJobs),
        status: 109,
        out: "",
        err: "farm: job list: fault 3 at line 0\n",
    },
    Row {
        ask: Ask::Jobs(
            2,
            JobFault::SameOutput {
                first: 1,
                second: 2,
            },
        ),
        status: 109,
        out: "",
        err: "farm: job list: fault 6 at line 2\n",
    },
    Row {
        ask: Ask::Scan("scc -c x.c"),
        status: 0,
        out: "remote -c x.c x.o\n",
        err: "",
    },
    Row {
        ask: Ask::Scan("scc -S a/x.cc -o y"),
        status: 0,
        out: "remote -S a/x.cc y\n",
        err: "",
    },
    Row {
        ask: Ask::Scan("gcc -O2 -o b/x.o -c x.i"),
        status: 0,
        out: "remote -c x.i b/x.o\n",
        err: "",
    },
    Row {
        ask: Ask::Scan("scc x.c"),
        status: 0,
        out: "local 1 at 2\n",
        err: "",
    },
    Row {
        ask: Ask::Scan("scc -c -E x.c"),
        status: 0,
        out: "local 3 at 2\n",
        err: "",
    },
    Row {
        ask: Ask::Scan("scc -c x.c -o x.farm~"),
        status: 0,
        out: "local 22 at 4\n",
        err: "",
    },
    Row {
        ask: Ask::Words(0),
        status: 101,
        out: "",
        err: "farm: bad words at word 0\n",
    },
    Row {
        ask: Ask::Words(12),
        status: 101,
        out: "",
        err: "farm: bad words at word 12\n",
    },
    Row {
        ask: Ask::Period,
        status: 101,
        out: "",
        err: "farm: bad DISTCC_BACKOFF_PERIOD\n",
    },
    Row {
        ask: Ask::Unread,
        status: 107,
        out: "",
        err: "farm: cannot read the job list\n",
    },
    Row {
        ask: Ask::Version,
        status: 0,
        out: "farm 0.1, distcc protocol 1\n",
        err: "",
    },
    Row {
        ask: Ask::Help(Some(CommandName::Hosts)),
        status: 0,
        out: "Usage: farm hosts [--hosts LIST]\nPrints the host list as farm reads it, one host a line.\n\n  --hosts LIST   the host list, in place of DISTCC_HOSTS\n",
        err: "",
    },
    Row {
        ask: Ask::Help(Some(CommandName::Cc)),
        status: 0,
        out: "Usage: farm cc WORD...\nDoes the compile command that the words are, on the hosts of DISTCC_HOSTS, and\nends with the compiler's exit code. A command that may not be sent is run here\nas it stands.\n\nEach command asks the hosts in the order of the list, from the first on. With\n--randomize in the list each process begins at another one, so that make -j\nuses them all. Below farm share each is given a slot of a host.\n",
        err: "",
    },
];

fn expect_answer<R: Abort>(rt: &R, alloc: Global, row: &Row, at: usize) -> Result<(), AllocError> {
    let mut out = empty_page(alloc);
    let mut err = empty_page(alloc);
    let status = answer(alloc, row.ask, &mut out, &mut err)?;
    same(rt, &status, &row.status, &at);
    same_bytes(rt, out.text.as_slice(), row.out.as_bytes(), &at);
    same_bytes(rt, err.text.as_slice(), row.err.as_bytes(), &at);
    Ok(())
}

fn expect_answers<R: Abort>(rt: &R, alloc: Global, rows: &[Row]) -> Result<(), Fail> {
    for (at, row) in rows.iter().enumerate() {
        expect_answer(rt, alloc, row, at)?;
    }
    Ok(())
}

#[test]
fn answers(rt: HostRuntime) -> Result<(), Fail> {
    expect_answers(&rt, rt.alloc(), ROWS)
}
