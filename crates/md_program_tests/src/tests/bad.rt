//! Inputs with a record that breaks the grammar.

use crate::tests::{AMPLE, expect};
use md_program::Status;

// Inputs whose first line is bad.
const BAD_FIRST: &[&[u8]] = &[
    // Numbers out of range.
    b"1,P,7,S,100,1000001\n",
    b"1,P,7,S,100,0\n",
    b"1,P,7,S,1001,5\n",
    b"1,P,7,S,0,5\n",
    b"1,P,0,S,100,5\n",
    b"1,P,10000,S,100,5\n",
    b"2,D,S,100\n",
    b"0,D,S,100\n",
    b"1,D,S,1001\n",
    b"1,D,B,0\n",
    b"1,C,9,1\n",
    b"1,C,0,1\n",
    b"1,C,1,0\n",
    b"1,C,1,1000001\n",
    b"1,F,0,S,100,5\n",
    b"1,F,10000,S,100,5\n",
    b"1,F,7,S,0,5\n",
    b"1,F,7,S,1001,5\n",
    b"1,F,7,S,100,0\n",
    b"1,F,7,S,100,1000001\n",
    b"1,A,0\n",
    b"1,A,10000\n",
    // Versions that there are not.
    b"medley,3\n",
    b"medley,02\n",
    b"medley,2,2\n",
    // Fields too few and too many.
    b"1,P,7,S,10",
    b"1,P,7,S,100,5,\n",
    b"1,C,1\n",
    b"1,C,1,1,1\n",
    b"1,F,7,S,100\n",
    b"1,F,7,S,100,5,5\n",
    b"1,D,S\n",
    b"1,D,S,100,5\n",
    b"1,A\n",
    b"1,A,7,7\n",
    b"1\n",
    // What is no number, no side or no kind.
    b"1,P,00000000007,S,100,5\n",
    b"1,C,1,4294967297\n",
    b" 1,A,7\n",
    b"1,A,7 \n",
    b"1,A,\n",
    b"1,P,+7,S,100,5\n",
    b"1,F,7,s,100,5\n",
    b"1,F,7,BS,100,5\n",
    b"1,p,7,S,100,5\n",
    b"1,AA,7\n",
    b"1,,7\n",
    b"1,\xFF,7\n",
    b"1,A,\"7\n1,A,8\n",
    b"# 1,A,7\n",
];

#[test]
fn bad_inputs(rt: HostRuntime) {
    for input in BAD_FIRST {
        expect(&rt, input, AMPLE, Status::BadLine(1), b"fault line 1\n");
    }
}

// Inputs with a bad line, its number, and the text.
const BAD_LATER: &[(&[u8], u32, &[u8])] = &[
    (b"1,P,7,S,100,5\n1,P,7,X,100,5\n", 2, b"fault line 2\n"),
    (b"\n1,A,7\n\n1,C,9,1\n1,A,0\n", 2, b"fault line 2\n"),
    (b"1,A,7\r1,\"A\",8\n1,D,S\n", 3, b"fault line 3\n"),
    (b"medley,2\nmedley,2\n", 2, b"fault line 2\n"),
    (b"1,A,7\nmedley,2\n", 2, b"fault line 2\n"),
    (b"medley,2\n2,A,7\n", 2, b"fault line 2\n"),
    (b"medley,2\n1,A,7\n64,A,7\n", 3, b"fault line 3\n"),
];

#[test]
fn later_bad_inputs(rt: HostRuntime) {
    for (input, line, text) in BAD_LATER {
        expect(&rt, input, AMPLE, Status::BadLine(*line), text);
    }
}
