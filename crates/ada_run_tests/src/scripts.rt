//! Scripts that several tests play.

/// One rendezvous.
pub const RENDEZVOUS: &[u8] = b"main: create S under main E
main: create C under main
main: activate S C
S: up
C: up
C: call S E
S: accept E
S: end
";

/// Three tasks that are activated at once.
pub const THREE: &[u8] = b"main: create S under main E G
main: create A under main
main: create B under main
main: activate S A B
S: up
A: up
B: up
";

/// A task that calls itself, and waits for good.
pub const OWN_CALL: &[u8] = b"main: create S under main E
main: activate S
S: up
S: call S E
S: complete
main: complete
";

/// Calls in the order of their arrival, and COUNT.
pub const ARRIVALS: &[u8] = b"main: create S under main E G
main: create A under main
main: create B under main
main: activate S A B
S: up
A: up
B: up
S: accept E
A: call S E
B: call S E
main: call S E
S: show count E
S: end
S: accept E
S: show count E
";

/// A creation that is refused, and tasks that aren't there.
pub const MISSING: &[u8] = b"main: create A under main
main: create T under A
main: show callable T
main: show callable A
A: show terminated main
T: show callable A
";
