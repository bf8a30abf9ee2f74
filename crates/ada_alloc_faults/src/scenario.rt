//! The scripts that the trials play.

use ada_script::{Meaning, Names};

/// How many of the lines make requests; those after them show attributes.
pub const REQUESTS: usize = 28;

/// How many lines there are.
pub const LINES: usize = 31;

/// How many events the requests lead to.
pub const EVENTS: usize = 44;

/// A script that leads to each kind of event.
pub const SCRIPT: &[u8] = b"main: open B
main: create S under B E F 1 3 G
main: create A under B
main: create C under B E
main: activate S A
S: up
A: up
main: activate C
C: fail
A: call C E
A: call S E
S: select 2 accept E or accept F 1 or closed accept F 2
S: raise
A: call S F 2 within 5
S: select 0 accept E or delay 3 or closed delay 1
tick 10
S: select 0 accept E or terminate
A: try S E
S: end
A: delay 2
tick 12
S: select 0 accept E else
S: select 0 closed accept E
A: call S E
main: abort A C A C A C A C A
S: select 0 accept E or terminate
main: close
main: complete
main: show callable S
main: show terminated A
S: show count E
";

/// Collective termination, which a call from outside holds up.
const TERMINATION: &[u8] = b"main: create C under main
main: activate C
C: up
main: open B
main: create X under B E
main: create Y under B E
main: activate X Y
X: create Z under X E
X: activate Z
Z: up
X: up
Y: up
X: select 0 accept E or terminate
Y: select 0 accept E or terminate
Z: select 0 closed accept E or terminate
C: call Z E within 5
main: close
tick 5
";

/// A server within two rendezvous aborts itself, while a third call is queued.
const SELF_ABORT: &[u8] = b"main: create S under main E G
main: create A under main
main: create B under main
main: activate S A B
S: up
A: up
B: up
A: call S E
B: call S G
S: accept E
S: accept G
main: call S E
S: abort S
";

/// The same tasks terminate at once, since no call holds them up.
const QUIT: &[u8] = b"main: create C under main
main: activate C
C: up
main: open B
main: create X under B E
main: create Y under B E
main: activate X Y
X: create Z under X E
X: activate Z
Z: up
X: up
Y: up
X: select 0 accept E or terminate
Y: select 0 accept E or terminate
Z: select 0 closed accept E or terminate
main: close
";

/// A caller is aborted within its rendezvous, which then ends.
const ABORT: &[u8] = b"main: create S under main E G
main: create A under main
main: create B under main
main: activate S A B
S: up
A: up
B: up
S: accept E
A: call S E
main: abort A
main: show callable A
main: show terminated A
S: end
main: show terminated A
";

/// What it prints.
const ABORT_PRINTED: &[u8] = b"1 main created S under main with E(0..0) G(0..0)
2 main created A under main
3 main created B under main
4 main started S A B
5 S up
6 A up
7 B up
8 activated 4 ok
9 S waits 0 accept E(0)
10 A called S.E(0)
11 met 10 9
12 main aborted A
shown line 11: false
shown line 12: false
13 S ended 10
14 halted A
15 gone A
shown line 14: true
";

/// Five calls wait in one queue, and are served in the order of their arrival.
const QUEUE: &[u8] = b"main: create S under main E
main: create A under main
main: create B under main
main: create C under main
main: create D under main
main: activate S A B C D
S: up
A: up
B: up
C: up
D: up
A: call S E
B: call S E
C: call S E
D: call S E
main: call S E
S: accept E
S: end
S: accept E
S: end
S: accept E
S: end
S: accept E
S: end
S: accept E
S: end
";

/// What the trials of a kernel's step play.
#[derive(Clone, Copy, Debug, PartialEq, Eq)]
pub enum Scene {
    /// The script that leads to each kind of event.
    EachEvent,
    Termination,
    Quit,
    SelfAbort,
    Abort,
    Queue,
}

impl Scene {
    pub fn script(self) -> &'static [u8] {
        match self {
            Scene::EachEvent => SCRIPT,
            Scene::Termination => TERMINATION,
            Scene::Quit => QUIT,
            Scene::SelfAbort => SELF_ABORT,
            Scene::Abort => ABORT,
            Scene::Queue => QUEUE,
        }
    }

    /// What the script prints, where that was worked out by hand.
    pub fn printed(self) -> Option<&'static [u8]> {
        match self {
            Scene::Abort => Some(ABORT_PRINTED),
            _ => None,
        }
    }

    /// How many requests the script makes.
    pub fn requests(self) -> usize {
        match self {
            Scene::EachEvent => REQUESTS,
            Scene::Termination => 18,
            Scene::Quit => 16,
            Scene::SelfAbort => 13,
            Scene::Abort => 11,
            Scene::Queue => 26,
        }
    }

    /// The names that the script declares, that of the main program first.
    fn names(self) -> &'static [&'static [u8]] {
        match self {
            Scene::EachEvent => &[b"main", b"B", b"S", b"A", b"C"],
            Scene::Termination | Scene::Quit => &[b"main", b"C", b"B", b"X", b"Y", b"Z"],
            Scene::SelfAbort | Scene::Abort => &[b"main", b"S", b"A", b"B"],
            Scene::Queue => &[b"main", b"S", b"A", b"B", b"C", b"D"],
        }
    }

    /// Whether all names of the script are declared in both, and mean the same.
    pub fn has_same_names(self, names: &Names, others: &Names) -> bool {
        self.names()
            .iter()
            .all(|name| is_same(names.meaning(name), others.meaning(name)))
    }
}

fn is_same(meaning: Option<&Meaning>, other: Option<&Meaning>) -> bool {
    match (meaning, other) {
        (Some(meaning), Some(other)) => meaning == other,
        _ => false,
    }
}
