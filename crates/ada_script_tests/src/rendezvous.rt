//! A script of one rendezvous, and what it prints.

/// A server, a client and one rendezvous, to the end.
pub const SCRIPT: &[u8] = b"main: create S under main E
main: create C under main
main: activate S C
S: up
C: up
C: call S E
S: accept E
S: end
C: complete
S: complete
main: complete
";

/// What it prints.
pub const PRINTED: &[u8] = b"1 main created S under main with E(0..0)
2 main created C under main
3 main started S C
4 S up
5 C up
6 activated 3 ok
7 C called S.E(0)
8 S waits 0 accept E(0)
9 met 7 8
10 S ended 7
11 C completed
12 gone C
13 S completed
14 gone S
15 main completed
16 gone main
";
