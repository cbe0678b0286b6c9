//! Service files with one thing wrong.
use crate::edits::{Edit, edited};
use crate::networks::NETWORK;
use service_files::check_service;
use std::alloc::AllocError;

const SERVICE: &str = r#"
network = "network.toml"
control = "127.0.0.1:7999"

[[terminals]]
pad = "desk"
listen = "127.0.0.1:7001"
last = 3

[[terminals]]
pad = "desk"
listen = "127.0.0.1:7002"
first = 4
mode = "raw"

[[service]]
host = "echo"
builtin = "echo"

[[caller]]
host = "echo"
listen = "127.0.0.1:7100"
call = "1001"
user_data = "01000000"
"#;

const FORMS: &[Edit] = &[
    (
        "network =",
        "netwerk =",
        "no key 'netwerk' is known here (did you mean 'network'?)",
    ),
    (
        r#"network = "network.toml""#,
        "",
        "the key 'network' is missing",
    ),
    (
        "[[terminals]]",
        "[[terminal]]",
        "no key 'terminal' is known here (did you mean 'terminals'?)",
    ),
    (
        r#"pad = "desk""#,
        r#"pads = "desk""#,
        "terminals 0: no key 'pads' is known here (did you mean 'pad'?)",
    ),
    (
        r#"pad = "desk""#,
        "",
        "terminals 0: the key 'pad' is missing",
    ),
    (
        "last = 3",
        "last = -1",
        "terminals 0: last = -1 has to be a whole number from 0 to 65535, without quotes",
    ),
    (
        r#"mode = "raw""#,
        r#"mode = "Raw""#,
        r#"terminals 1: mode = "Raw" has to be one of "telnet" "raw" (did you mean 'raw'?)"#,
    ),
    (
        "last = 3",
        r#"allow = "10.0.0.0/8""#,
        r#"terminals 0: allow = "10.0.0.0/8" has to be texts in quotes, between brackets"#,
    ),
    (
        "last = 3",
        r#"allow = ["10.0.0.0"]"#,
        r#"terminals 0: allow = "10.0.0.0" has to be an IP address, / and how many bits of it count, as 10.0.0.0/8"#,
    ),
    (
        "last = 3",
        r#"allow = ["10.0.0.0/33"]"#,
        r#"terminals 0: allow = "10.0.0.0/33" has to be an IP address, / and how many bits of it count, as 10.0.0.0/8"#,
    ),
    (
        "127.0.0.1:7001",
        "localhost:7001",
        r#"terminals 0: listen = "localhost:7001" has to be an IP address and a port, as 127.0.0.1:7001"#,
    ),
    (
        "127.0.0.1:7999",
        "127.0.0.1",
        r#"control = "127.0.0.1" has to be an IP address and a port, as 127.0.0.1:7001"#,
    ),
    (
        r#"builtin = "echo""#,
        r#"builtin = "ekko""#,
        r#"service 0: builtin = "ekko" has to be one of "echo" "time" "discard" (did you mean 'echo'?)"#,
    ),
    (
        r#"builtin = "echo""#,
        "",
        "service 0: it has neither 'connect' nor 'builtin'",
    ),
    (
        r#"builtin = "echo""#,
        "builtin = \"echo\"\nconnect = \"127.0.0.1:8001\"",
        "service 0: it has both 'connect' and 'builtin'",
    ),
    (
        r#"builtin = "echo""#,
        "builtin = \"echo\"\nlinger = 9",
        "service 0: linger is for a service to connect to",
    ),
    (
        r#"builtin = "echo""#,
        "builtin = \"echo\"\nhello = false",
        "service 0: hello is for a service to connect to",
    ),
    (
        r#"builtin = "echo""#,
        r#"connect = "localhost:80""#,
        r#"service 0: connect = "localhost:80" has to be an IP address and a port, as 127.0.0.1:7001"#,
    ),
    (
        r#"builtin = "echo""#,
        "connect = \"[::1]:80\"\nat_reset = \"close\"",
        r#"service 0: at_reset = "close" has to be one of "clear" "continue""#,
    ),
    (
        r#"builtin = "echo""#,
        "connect = \"[::1]:80\"\nwait = 65536",
        "service 0: wait = 65536 has to be a whole number from 0 to 65535, without quotes",
    ),
    (
        r#"builtin = "echo""#,
        "connect = \"[::1]:80\"\nhello = 1",
        "service 0: hello = 1 has to be true or false, without quotes",
    ),
    (
        r#"call = "1001""#,
        "",
        "caller 0: the key 'call' is missing",
    ),
    (
        r#"call = "1001""#,
        "call = 1001",
        "caller 0: call = 1001 has to be 1 to 15 digits, in quotes",
    ),
    (
        r#"call = "1001""#,
        r#"call = "1234567890123456""#,
        r#"caller 0: call = "1234567890123456" has to be 1 to 15 digits, in quotes"#,
    ),
    (
        r#"user_data = "01000000""#,
        r#"user_data = "010""#,
        r#"caller 0: user_data = "010" has to be up to 16 octets, each as two hexadecimal digits"#,
    ),
    (
        r#"user_data = "01000000""#,
        r#"user_data = "0x01""#,
        r#"caller 0: user_data = "0x01" has to be up to 16 octets, each as two hexadecimal digits"#,
    ),
    (
        r#"user_data = "01000000""#,
        r#"user_data = "0102030405060708090a0b0c0d0e0f1011""#,
        r#"caller 0: user_data = "0102030405060708090a0b0c0d0e0f1011" has to be up to 16 octets, each as two hexadecimal digits"#,
    ),
    (
        r#"user_data = "01000000""#,
        r#"userdata = "01000000""#,
        "caller 0: no key 'userdata' is known here (did you mean 'user_data'?)",
    ),
    (
        "127.0.0.1:7100",
        "127.0.0.1",
        r#"caller 0: listen = "127.0.0.1" has to be an IP address and a port, as 127.0.0.1:7001"#,
    ),
    (
        r#"call = "1001""#,
        "call = \"1001\"\nallow = [\"10.0.0.0/8\", 7]",
        "caller 0: allow = (array) has to be texts in quotes, between brackets",
    ),
    (
        "[[service]]",
        "[limits]\nconnections = 2000\n\n[[service]]",
        "limits: connections = 2000 has to be a whole number from 0 to 1024, without quotes",
    ),
    (
        "[[service]]",
        "[web]\n\n[[service]]",
        "web: the key 'listen' is missing",
    ),
    (
        "[[service]]",
        "[capture]\n\n[[service]]",
        "capture: the key 'file' is missing",
    ),
    (
        "[[service]]",
        "[capture]\nfile = \"x25.pcapng\"\nsize = 0\n\n[[service]]",
        "capture: size = 0 has to be 1 at least",
    ),
    (
        "[[service]]",
        "[[line]]\n\n[[service]]",
        "line 0: the key 'line' is missing",
    ),
    (
        "[[service]]",
        "[[line]]\nline = 0\nhere = \"dte\"\nto = \"findravolo\"\n\n[[service]]",
        "line 0: it has neither 'listen' nor 'connect'",
    ),
    (
        "[[service]]",
        "[[line]]\nline = 2\nhere = \"dce\"\nto = \"xot\"\n\n[[service]]",
        "line 0: it has neither 'listen' nor 'connect'",
    ),
    (
        "[[service]]",
        "[[line]]\nline = 2\nhere = \"dce\"\nto = \"udp\"\n\n[[service]]",
        "line 0: it has no 'bind'",
    ),
    (
        "[[service]]",
        "[[line]]\nline = 2\nhere = \"dce\"\nto = \"udp\"\nbind = \"127.0.0.1:5001\"\n\n[[service]]",
        "line 0: it has no 'partner'",
    ),
    (
        "[[service]]",
        "[[line]]\nline = 2\nhere = \"dce\"\nto = \"udp\"\nbind = \"127.0.0.1:5001\"\npartner = \"router:5001\"\n\n[[service]]",
        r#"line 0: partner = "router:5001" has to be an IP address and a port, as 127.0.0.1:7001"#,
    ),
    (
        "[[service]]",
        "[[line]]\nline = 2\nhere = \"dce\"\nto = \"udp\"\nlisten = \"127.0.0.1:5001\"\n\n[[service]]",
        r#"line 0: listen is for to = "findravolo" and to = "xot""#,
    ),
    (
        "[[service]]",
        "[[line]]\nline = 2\nhere = \"dce\"\nto = \"xot\"\nbind = \"127.0.0.1:5001\"\n\n[[service]]",
        r#"line 0: bind is for to = "udp""#,
    ),
    (
        "[[service]]",
        "[[line]]\nline = 2\nhere = \"dce\"\nto = \"xot\"\nconnect = \"127.0.0.1:1998\"\nhold = 20\n\n[[service]]",
        r#"line 0: hold is for to = "findravolo""#,
    ),
    (
        "[[caller]]",
        "[[callers]]",
        "no key 'callers' is known here (did you mean 'caller'?)",
    ),
    (
        "network =",
        "network",
        "TOML parse error at line 2, column 9: key with no value, expected `=`",
    ),
];

const RULES: &[Edit] = &[
    (
        "nothing",
        "",
        "terminals 0 to 3 of desk at 127.0.0.1:7001\nterminals 4 to 7 of desk at 127.0.0.1:7002\nhost echo: builtin echo\ncalls of 1001 from host echo at 127.0.0.1:7100\ncontrol at 127.0.0.1:7999\nat most 64 connections",
    ),
    (
        r#"pad = "desk""#,
        r#"pad = "dask""#,
        r#"terminals 0: pad = "dask" is no node (did you mean 'desk'?)"#,
    ),
    (
        r#"pad = "desk""#,
        r#"pad = "echo""#,
        r#"terminals 0: pad = "echo" is no PAD"#,
    ),
    (
        "first = 4",
        "first = 8",
        "terminals 1: first = 8 is no terminal of 'desk', which has 8, counted from 0",
    ),
    (
        "last = 3",
        "last = 8",
        "terminals 0: last = 8 is no terminal of 'desk' from first = 0 on; it has 8, counted from 0",
    ),
    (
        "last = 3",
        "last = 4",
        "terminals 0: a terminal of 'desk' stands in another table too",
    ),
    (
        "127.0.0.1:7002",
        "127.0.0.1:7001",
        r#"terminals 0: listen = "127.0.0.1:7001" stands in another table too, or is control"#,
    ),
    (
        "127.0.0.1:7999",
        "127.0.0.1:7002",
        r#"terminals 1: listen = "127.0.0.1:7002" stands in another table too, or is control"#,
    ),
    (
        "first = 4",
        "first = 4\ngreeting = \"Hello\"",
        r#"terminals 1: a greeting is for mode = "telnet" alone"#,
    ),
    (
        "127.0.0.1:7001",
        "0.0.0.0:7001",
        r#"terminals 0: listen = "0.0.0.0:7001" is beyond this machine, and allow has to say who may connect"#,
    ),
    (
        r#"host = "echo""#,
        r#"host = "ekho""#,
        r#"service 0: host = "ekho" is no node (did you mean 'echo'?)"#,
    ),
    (
        r#"host = "echo""#,
        r#"host = "tower""#,
        r#"service 0: host = "tower" is no host"#,
    ),
    (
        "[[service]]",
        "[[service]]\nhost = \"echo\"\nbuiltin = \"time\"\n\n[[service]]",
        "service 0: 'echo' has another service too",
    ),
    (
        r#"builtin = "echo""#,
        "connect = \"127.0.0.1:8001\"\nhello = true\nwait = 20\nat_reset = \"continue\"\nlinger = 0",
        "terminals 0 to 3 of desk at 127.0.0.1:7001\nterminals 4 to 7 of desk at 127.0.0.1:7002\nhost echo: connect 127.0.0.1:8001\ncalls of 1001 from host echo at 127.0.0.1:7100\ncontrol at 127.0.0.1:7999\nat most 64 connections",
    ),
    (
        "[[caller]]\nhost = \"echo\"",
        "[[caller]]\nhost = \"eco\"",
        r#"caller 0: host = "eco" is no node (did you mean 'echo'?)"#,
    ),
    (
        "[[caller]]\nhost = \"echo\"",
        "[[caller]]\nhost = \"desk\"",
        r#"caller 0: host = "desk" is no host"#,
    ),
    (
        "127.0.0.1:7100",
        "127.0.0.1:7002",
        r#"terminals 1: listen = "127.0.0.1:7002" stands in another table too, or is control"#,
    ),
    (
        "127.0.0.1:7100",
        "127.0.0.1:7999",
        r#"caller 0: listen = "127.0.0.1:7999" stands in another table too, or is control"#,
    ),
    (
        "127.0.0.1:7100",
        "[::]:7100",
        r#"caller 0: listen = "[::]:7100" is beyond this machine, and allow has to say who may connect"#,
    ),
    (
        "[[service]]",
        "[[line]]\nline = 2\nhere = \"dte\"\nto = \"xot\"\nconnect = \"127.0.0.1:1998\"\n\n[[service]]",
        r#"line 0: here = "dte" has to be "dce": equipment is the DTE of its line"#,
    ),
    (
        "[[service]]",
        "[[line]]\nline = 2\nhere = \"dte\"\nto = \"udp\"\nbind = \"127.0.0.1:5001\"\npartner = \"127.0.0.1:5002\"\n\n[[service]]",
        r#"line 0: here = "dte" is 'echo', which is no switch: equipment is at a line of a switch"#,
    ),
    (
        "[[service]]",
        "[[line]]\nline = 1\nhere = \"dce\"\nto = \"xot\"\nconnect = \"127.0.0.1:1998\"\n\n[[service]]",
        "line 0: line = 1 leads to 'tower', which is no host",
    ),
    (
        "[[service]]",
        "[[line]]\nline = 0\nhere = \"dce\"\nto = \"udp\"\nbind = \"127.0.0.1:5001\"\npartner = \"127.0.0.1:5002\"\n\n[[service]]",
        "line 0: line = 0 leads to 'desk', which is neither a host nor a switch",
    ),
    (
        "[[service]]",
        "[[line]]\nline = 2\nhere = \"dce\"\nto = \"xot\"\nlisten = \"127.0.0.1:7002\"\n\n[[service]]",
        r#"line 0: listen = "127.0.0.1:7002" stands in another table too, or is control"#,
    ),
    (
        "[[service]]",
        "[[line]]\nline = 2\nhere = \"dce\"\nto = \"xot\"\nlisten = \"0.0.0.0:1998\"\n\n[[service]]",
        "line 0: its listen is beyond this machine, and allow has to say who may connect",
    ),
    (
        "[[service]]",
        "[[line]]\nline = 2\nhere = \"dce\"\nto = \"xot\"\nconnect = \"127.0.0.1:1998\"\n\n[[service]]",
        r#"service 0: host = "echo" is elsewhere, behind a line of [[line]]"#,
    ),
    (
        "[[service]]",
        "[[line]]\nline = 2\nhere = \"dce\"\nto = \"udp\"\nbind = \"127.0.0.1:5001\"\npartner = \"127.0.0.1:5002\"\n\n[[line]]\nline = 1\nhere = \"dce\"\nto = \"udp\"\nbind = \"127.0.0.1:5001\"\npartner = \"127.0.0.1:5003\"\n\n[[service]]",
        r#"line 0: bind = "127.0.0.1:5001" stands in another table too"#,
    ),
    (
        "127.0.0.1:7999",
        "192.0.2.1:7999",
        "control has to be an address of this machine alone, as 127.0.0.1:7999",
    ),
];

#[test]
fn each_is_told(rt: HostRuntime) -> Result<(), AllocError> {
    for rows in [FORMS, RULES] {
        for (old, new, told) in rows {
            let text = edited(rt.alloc(), SERVICE, old, new)?;
            let checked = check_service(rt.alloc(), text.as_bytes(), NETWORK.as_bytes())?;
            assert_eq!(rt; checked.text.trim_end(), *told);
        }
    }
    Ok(())
}
