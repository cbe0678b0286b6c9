//! The built-in network: a PAD for clients of telnet, a switch, and hosts with services.

/// The built-in network.
pub(crate) const NETWORK: &str = r#"
[[node]]
name = "exchange"
kind = "switch"

[[node]]
name = "desk"
kind = "pad"
terminals = 8
set = "5:0,6:5,7:1,13:6"

[[node]]
name = "echo"
kind = "host"

[[node]]
name = "time"
kind = "host"

[[node]]
name = "own"
kind = "host"

[[line]]
dte = "desk"
dce = "exchange"
address = "1000"
channels = 8
window = 7

[[line]]
dte = "echo"
dce = "exchange"
address = "2001"
channels = 32
window = 7

[[line]]
dte = "time"
dce = "exchange"
address = "2002"
channels = 32
window = 7

[[line]]
dte = "own"
dce = "exchange"
address = "2003"
channels = 32
window = 7

[[route]]
switch = "exchange"
prefix = "1000"
line = 0

[[route]]
switch = "exchange"
prefix = "2001"
line = 1

[[route]]
switch = "exchange"
prefix = "2002"
line = 2

[[route]]
switch = "exchange"
prefix = "2003"
line = 3
"#;

/// How people and programs come to its nodes. The words say where its terminals and its control port are.
pub(crate) const SERVICE: &str = r#"
network = "built-in"

[[terminals]]
pad = "desk"
listen = "127.0.0.1:7001"

[[service]]
host = "echo"
builtin = "echo"

[[service]]
host = "time"
builtin = "time"

[[service]]
host = "own"
connect = "127.0.0.1:8001"
"#;

/// What its numbers are.
pub(crate) const NUMBERS: &str =
    "2001 echoes, 2002 tells the time, 2003 is your own service on 127.0.0.1:8001";
