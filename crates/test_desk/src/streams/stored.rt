//! Inputs, and what the program writes of them.

pub const INPUT: &str = "add a 9
0 socket(..., SOCK_STREAM, IPPROTO_TCP) = 3
+0 bind(3, ..., ...) = 0
+0 listen(3, 1) = 0
+0.1 < S 0:0(0) win 32792 <mss 1000,sackOK,nop,nop,nop,wscale 7>
+0 > S. 0:0(0) ack 1 <...>
+0.1 < . 1:1(0) ack 1 win 257
+0 accept(3, ..., ...) = 4
+0 write(4, ..., 1000) = 1000
+0 > P. 1:1001(1000) ack 1
show
edit a 12 1 0
settle
";

pub const OUTPUT: &str = "a pending
total 1 pass 0 fail 0 syntax 0 unsupported 0 limit 0 pending 1
refused 1 BadRange
a pass 9
total 1 pass 1 fail 0 syntax 0 unsupported 0 limit 0 pending 0
a pass 9
total 1 pass 1 fail 0 syntax 0 unsupported 0 limit 0 pending 0
";

/// Where memory may be wanted, with a tolerance of 5,000 us.
pub const MEMORY_INPUT: &str = "add a 9
0 socket(..., SOCK_STREAM, IPPROTO_TCP) = 3
+0 bind(3, ..., ...) = 0
+0 listen(3, 1) = 0
+0.1 < S 0:0(0) win 32792 <mss 1000,sackOK,nop,nop,nop,wscale 7>
+0 > S. 0:0(0) ack 1 <mss 1460,nop,nop,sackOK,nop,wscale 7>
+0.1 < . 1:1(0) ack 2 win 257
+0 > R 2:2(0)
+0 < . 1:1(0) ack 1 win 257
+0 accept(3, ..., ...) = 4
show
set mss 1
settle
edit a 5 1 1
+0 > S. 0:0(0) ack 1
settle
remove a
";

pub const MEMORY_OUTPUT: &str = "a pending
total 1 pass 0 fail 0 syntax 0 unsupported 0 limit 0 pending 1
refused 4 BadValue
a pass 9
total 1 pass 1 fail 0 syntax 0 unsupported 0 limit 0 pending 0
a fail 5 options
total 1 pass 0 fail 1 syntax 0 unsupported 0 limit 0 pending 0
total 0 pass 0 fail 0 syntax 0 unsupported 0 limit 0 pending 0
";
