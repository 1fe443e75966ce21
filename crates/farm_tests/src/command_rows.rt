//! Rows of words, of environments and of what farm answers to them.

pub(crate) const DONE: &str = "1 remote H:3632 stat 00000000\ntotal 1 ok 1\n";

const HOSTS: &str = "red:4000/2\nblue:4001/3\n--localslots=4\n--localslots_cpp=8\n";

// The words after the program's name, the variables, and what is seen: the status, the output, the error sink.
pub(crate) struct Row {
    pub(crate) words: &'static [&'static str],
    pub(crate) env: &'static [(&'static str, &'static str)],
    pub(crate) status: u8,
    pub(crate) out: &'static str,
    pub(crate) err: &'static str,
}

// Words of one command each. What a build is asked for is the first run's job.
pub(crate) const COMMANDS: &[Row] = &[
    Row {
        words: &[
            "build",
            "--hosts",
            "H",
            "--workers",
            "1",
            "--no-fallback",
            "--no-retry",
        ],
        env: &[],
        status: 0,
        out: DONE,
        err: "note\n",
    },
    Row {
        words: &[
            "build",
            "--no-retry",
            "--no-fallback",
            "--workers",
            "16",
            "--hosts",
            "H/1",
        ],
        env: &[],
        status: 0,
        out: DONE,
        err: "note\n",
    },
    Row {
        words: &[
            "build",
            "--workers",
            "4",
            "--no-retry",
            "--hosts",
            " H:3632/255 # x",
            "--no-fallback",
        ],
        env: &[],
        status: 0,
        out: DONE,
        err: "note\n",
    },
    Row {
        words: &["build", "--no-fallback", "--hosts", "H --randomize"],
        env: &[],
        status: 0,
        out: DONE,
        err: "note\n",
    },
    Row {
        words: &["build", "--hosts", "H"],
        env: &[("DISTCC_FALLBACK", "0")],
        status: 0,
        out: DONE,
        err: "note\n",
    },
    Row {
        words: &["build"],
        env: &[
            ("DISTCC_FALLBACK", "0"),
            ("DISTCC_HOSTS", "H"),
            ("DISTCC_HOSTS", "@red"),
            ("DISTCC_FALLBACK", "1"),
        ],
        status: 0,
        out: DONE,
        err: "note\n",
    },
    Row {
        words: &["hosts"],
        env: &[],
        status: 0,
        out: "--localslots=4\n--localslots_cpp=8\n",
        err: "",
    },
    Row {
        words: &["hosts", "--hosts", "red/2:4000 blue:4001/3 # x"],
        env: &[("DISTCC_HOSTS", "@red")],
        status: 0,
        out: HOSTS,
        err: "",
    },
    Row {
        words: &["hosts"],
        env: &[
            ("DISTCC_HOSTS", "red/2:4000 blue:4001/3"),
            ("DISTCC_HOSTS", "@red"),
        ],
        status: 0,
        out: HOSTS,
        err: "",
    },
    Row {
        words: &["scan", "scc", "-c", "x.c"],
        env: &[("DISTCC_HOSTS", "@red")],
        status: 0,
        out: "remote -c x.c x.o\n",
        err: "",
    },
    Row {
        words: &["scan", "gcc", "-S", "-O2", "a/x.cc", "-o", "b/y"],
        env: &[],
        status: 0,
        out: "remote -S a/x.cc b/y\n",
        err: "",
    },
    Row {
        words: &["scan", "scc", "-c", "-march=native", "x.c"],
        env: &[],
        status: 0,
        out: "local 7 at 2\n",
        err: "",
    },
    Row {
        words: &["scan", "scc", "x.c"],
        env: &[],
        status: 0,
        out: "local 1 at 2\n",
        err: "",
    },
    Row {
        words: &["scan", "--help", "-c"],
        env: &[],
        status: 0,
        out: "local 5 at 2\n",
        err: "",
    },
    Row {
        words: &["--version"],
        env: &[],
        status: 0,
        out: "farm 0.1, distcc protocol 1\n",
        err: "",
    },
    Row {
        words: &["rehearse", "2"],
        env: &[
            ("DISTCC_HOSTS", "@red"),
            ("DISTCC_FALLBACK", "0"),
            ("DISTCC_BACKOFF_PERIOD", "x"),
        ],
        status: 0,
        out: "rehearse 2 ok 2 bytes 48\n",
        err: "",
    },
    Row {
        words: &["cc", "gcc", "-c", "x.c"],
        env: &[("DISTCC_HOSTS", "@H"), ("DISTCC_BACKOFF_PERIOD", "1000001")],
        status: 101,
        out: "",
        err: "farm: bad DISTCC_BACKOFF_PERIOD\n",
    },
    Row {
        words: &["cc", "gcc", "-c", "x.c"],
        env: &[("DISTCC_HOSTS", "H red:")],
        status: 106,
        out: "",
        err: "farm: host list: fault 4 at byte 6\n",
    },
    Row {
        words: &["hosts", "--hosts", "@red"],
        env: &[],
        status: 106,
        out: "",
        err: "farm: host list: fault 1 at byte 0\n",
    },
    Row {
        words: &["build", "--hosts", "H:0", "--no-fallback"],
        env: &[],
        status: 106,
        out: "",
        err: "farm: host list: fault 4 at byte 2\n",
    },
    Row {
        words: &["build", "--hosts", "@red"],
        env: &[],
        status: 106,
        out: "",
        err: "farm: host list: fault 1 at byte 0\n",
    },
];

// Builds by other hosts, and with fallback: the host compiles, or none is there.
pub(crate) const BUILDS: &[Row] = &[
    Row {
        words: &["build", "--hosts", "H"],
        env: &[],
        status: 0,
        out: DONE,
        err: "note\n",
    },
    Row {
        words: &["build", "--hosts", "H"],
        env: &[("DISTCC_FALLBACK", "1"), ("DISTCC_FALLBACK", "0")],
        status: 0,
        out: DONE,
        err: "note\n",
    },
    Row {
        words: &["build", "--no-fallback", "--hosts", "H H"],
        env: &[],
        status: 0,
        out: DONE,
        err: "note\n",
    },
    Row {
        words: &["build", "--no-fallback"],
        env: &[],
        status: 116,
        out: "1 failed no host\ntotal 1 ok 0\n",
        err: "",
    },
    Row {
        words: &["build", "--no-fallback", "--hosts", "--randomize"],
        env: &[],
        status: 116,
        out: "1 failed no host\ntotal 1 ok 0\n",
        err: "",
    },
];
