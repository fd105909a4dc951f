//! Rows that run out of memory: a call that finds none leaves its value as it was, and made again gives its answer. In the gate
//! there is memory; outside it they are run with each allocation refused in turn.

/// A book, and then the parts below it.
pub const ROWS: &str = "== a book and its parts, where each allocation may be refused
# a book, and then its parts
add a 0 socket(..., SOCK_STREAM, 0) = 3 | +0 bind(3, ..., ...) = 0 | +0 listen(3, 1) = 0 -> ok
start -> 1 a, 3 lines, 4000 us
run 1 -> Pass(3), 3 steps
edit a 3 1 +0 listen(3, 1) = 0 -> ok
finish 1 -> Stale
start -> 2 a, 3 lines, 4000 us
finish 2 -> Taken
show -> a Pass(3), 0 owed
set tolerance_us 5000 -> ok
add b -> ok
remove b -> ok
show -> a pending, 1 owed
start -> 3 a, 3 lines, 5000 us
abandon 3 -> ok
start -> 4 a, 3 lines, 5000 us
finish 4 -> Taken
show -> a Pass(3), 0 owed
history -> 13
text (empty) | +0 bind(3, ..., ...) = 0 -> 2
become 1 1 0 socket(..., SOCK_STREAM, 0) = 3 -> 2
line 1 -> 0 socket(..., SOCK_STREAM, 0) = 3
script -> 1 event, 2 event, end
plain-verdict -> Pass(2)
verdict -> Pass(2), 2 steps
edited 3 0 -> 0 socket(..., SOCK_STREAM, 0) = 3 | +0 bind(3, ..., ...) = 0
name a -> valid
";
