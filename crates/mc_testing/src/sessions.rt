//! Inputs of sessions with their outputs.

/// The input and the output of sessions over a new store, at second 1000.
pub const SESSIONS: [(&str, &str); 11] = [
    (
        "set a 5 0 3\r\nabc\r\nadd a 0 0 1\r\nx\r\nreplace a 7 0 1\r\nb\r\nappend a 0 0 1\r\nc\r\nprepend a 0 0 1\r\na\r\nget a\r\n",
        "STORED\r\nNOT_STORED\r\nSTORED\r\nSTORED\r\nSTORED\r\nVALUE a 7 3\r\nabc\r\nEND\r\n",
    ),
    (
        "set a 0 0 1\r\n9\r\nincr a 3\r\ndecr a 2\r\ntouch a 60\r\ngat 0 a\r\ndelete a\r\nflush_all\r\nget a\r\n",
        "STORED\r\n12\r\n10\r\nTOUCHED\r\nVALUE a 0 2\r\n10\r\nEND\r\nDELETED\r\nOK\r\nEND\r\n",
    ),
    (
        "set a 0 0 1\r\nx\r\ngets a\r\ncas a 0 0 1 1\r\ny\r\ncas a 0 0 1 1\r\nz\r\n",
        "STORED\r\nVALUE a 0 1 1\r\nx\r\nEND\r\nSTORED\r\nEXISTS\r\n",
    ),
    ("", ""),
    (
        "set a 5 0 3\r\nabc\r\nget a\r\n",
        "STORED\r\nVALUE a 5 3\r\nabc\r\nEND\r\n",
    ),
    (
        "set e 0 0 0\r\n\r\nget e\r\n",
        "STORED\r\nVALUE e 0 0\r\n\r\nEND\r\n",
    ),
    (
        "set a 0 0 3\r\nabcdef\r\n",
        "CLIENT_ERROR bad data chunk\r\nERROR\r\n",
    ),
    ("set a 0 0 4\r\n\r\n\r\n\r\n", "STORED\r\n"),
    (
        "set a 0 0 1 noreply\r\nx\r\nget a b a\r\nquit\r\nget a\r\n",
        "VALUE a 0 1\r\nx\r\nVALUE a 0 1\r\nx\r\nEND\r\n",
    ),
    ("set a 0 0 5\r\nab", ""),
    (
        "\r\nfoo\r\nget\r\nversion\n  version  \r\n",
        "ERROR\r\nERROR\r\nERROR\r\nVERSION 1.6.0\r\nVERSION 1.6.0\r\n",
    ),
];
