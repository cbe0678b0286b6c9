//! Networks with one thing wrong.
use crate::edits::{Edit, edited};
use network_reasons::check_network;
use std::alloc::AllocError;

pub const NETWORK: &str = r#"
[[node]]
name = "desk"
kind = "pad"
terminals = 8
set = "6:5,7:1"

[[node]]
name = "exchange"
kind = "switch"

[[node]]
name = "tower"
kind = "switch"

[[node]]
name = "echo"
kind = "host"

[[line]]
dte = "desk"
dce = "exchange"
address = "1001"

[[line]]
dte = "tower"
dce = "exchange"

[[line]]
dte = "echo"
dce = "tower"
address = "2001"

[[route]]
switch = "exchange"
prefix = "1001"
line = 0

[[route]]
switch = "exchange"
prefix = "2"
line = 1
"#;

/// The usual mistakes of a newcomer.
const USUAL: &[Edit] = &[
    ("nothing", "", "a network of 4 nodes, 3 lines and 2 routes"),
    (
        r#"kind = "pad""#,
        r#"kind = "PAD""#,
        r#"node 0 (desk): kind = "PAD" has to be one of "pad" "host" "switch" (did you mean 'pad'?)"#,
    ),
    (
        "terminals = 8",
        "terminal = 8",
        "node 0 (desk): no key 'terminal' is known here (did you mean 'terminals'?)",
    ),
    (
        r#"name = "desk""#,
        r#"name = "south-1""#,
        r#"node 0 (south-1): name = "south-1" has to be letters and digits alone, in quotes"#,
    ),
    (
        "6:5,7:1",
        "6:5, 7:1",
        r#"node 0 (desk): set = "6:5, 7:1" has to be pairs without spaces, as "3:2,15:1": up to 18, with numbers of 1 to 3 digits up to 255"#,
    ),
    (
        "line = 1",
        r#"line = "1""#,
        r#"route 1: line = "1" has to be a whole number from 0 to 65535, without quotes"#,
    ),
    (
        "[[node]]",
        "[[nodes]]",
        "no key 'nodes' is known here (did you mean 'node'?)",
    ),
    (
        r#""1001""#,
        "\"1001\"\nsize = 256",
        "line 0: size = 256 has to be 128 at a PAD",
    ),
    (
        r#"dte = "echo""#,
        r#"dte = "ecko""#,
        r#"line 2: dte = "ecko" is no node (did you mean 'echo'?)"#,
    ),
    (
        r#""2001""#,
        "\"2001\"\nsize = 1000",
        "line 2: size = 1000 has to be 128, 256, 512 or 1024",
    ),
    (
        r#"address = "2001""#,
        "",
        "line 2: a line to a switch has an address, which is that of 'echo'",
    ),
    (
        r#"dte = "tower""#,
        "dte = \"tower\"\naddress = \"3001\"",
        "line 1: a trunk, or a line without a switch, has no address",
    ),
    (
        "dte = \"tower\"\ndce = \"exchange\"",
        "dte = \"exchange\"\ndce = \"tower\"",
        "line 1: the DCE of a trunk is the switch that comes earlier in the text: exchange dte and dce",
    ),
];

/// What stands in a table and may not.
const FORMS: &[Edit] = &[
    (
        "[[route]]",
        "[[rout]]",
        "no key 'rout' is known here (did you mean 'route'?)",
    ),
    (
        r#"kind = "host""#,
        "kind = \"host\"\nterminals = 1",
        "node 3 (echo): no key 'terminals' is known here (it belongs to a PAD)",
    ),
    (
        r#"kind = "host""#,
        "",
        "node 3 (echo): the key 'kind' is missing",
    ),
    (
        "terminals = 8",
        "terminals = 70000",
        "node 0 (desk): terminals = 70000 has to be a whole number from 0 to 65535, without quotes",
    ),
    (
        "terminals = 8",
        r#"profile = "simple""#,
        r#"node 0 (desk): profile = "simple" has to be one of "SIMPLE" "TRANSPARENT" (did you mean 'SIMPLE'?)"#,
    ),
    (r#"dce = "tower""#, "", "line 2: the key 'dce' is missing"),
    (
        r#""2001""#,
        r#""20O1""#,
        r#"line 2: address = "20O1" has to be 1 to 15 digits, in quotes, or left out"#,
    ),
    (
        r#""2001""#,
        "2001",
        "line 2: address = 2001 has to be 1 to 15 digits, in quotes, or left out",
    ),
    (
        r#""2001""#,
        "\"2001\"\nstanding = 1",
        "line 2: standing = 1 has to be true or false, without quotes",
    ),
    (
        r#"prefix = "2""#,
        r#"prefix = """#,
        r#"route 1: prefix = "" has to be 1 to 15 digits, in quotes"#,
    ),
];

/// What does not fit together.
const RULES: &[Edit] = &[
    (
        r#"name = "tower""#,
        r#"name = "exchange""#,
        "node 1 (exchange): its name is another node's too",
    ),
    (
        "[[line]]",
        "[[node]]\nname = \"spare\"\nkind = \"host\"\n\n[[line]]",
        "node 4 (spare): it is at no line",
    ),
    (
        "[[route]]",
        "[[line]]\ndte = \"echo\"\ndce = \"tower\"\naddress = \"2002\"\n\n[[route]]",
        "line 2: 'echo' is the DTE of another line too, and may be that of one alone",
    ),
    (
        "terminals = 8",
        "terminals = 17",
        "node 0 (desk): terminals has to be 1 to 16",
    ),
    (
        "terminals = 8",
        "speed = 256",
        "node 0 (desk): speed has to be 0 to 255",
    ),
    (
        "7:1",
        "7:99",
        "node 0 (desk): set has a parameter that is not there or cannot have its value (parameter 11 is set by speed)",
    ),
    (
        r#"dce = "tower""#,
        r#"dce = "echo""#,
        "line 2: both ends are one node",
    ),
    (
        r#"dce = "tower""#,
        r#"dce = "desk""#,
        "line 2: 'desk' is a PAD, which is the DTE of its line: exchange dte and dce",
    ),
    (
        "dte = \"echo\"\ndce = \"tower\"",
        "dte = \"tower\"\ndce = \"echo\"",
        "line 1: 'tower' is the DTE of another line too, and may be that of one alone",
    ),
    (
        r#""2001""#,
        "\"2001\"\nwindow = 8",
        "line 2: window = 8 and modulo = 8 have to be 1 to 7 and 8, or 1 to 32 and 128",
    ),
    (
        r#""2001""#,
        "\"2001\"\nchannels = 33",
        "line 2: channels = 33 has to be 1 to 32",
    ),
    (
        r#""2001""#,
        "\"2001\"\nk = 8",
        "line 2: k = 8 has to be 1 to 7",
    ),
    (
        r#""2001""#,
        "\"2001\"\nn2 = 0",
        "line 2: n2 = 0 has to be 1 to 20",
    ),
    (
        r#""2001""#,
        "\"2001\"\nstanding = true",
        "line 2: a standing line is the only line of its network, from a PAD to a host",
    ),
    (
        r#"switch = "exchange""#,
        r#"switch = "echo""#,
        r#"route 0: switch = "echo" is no switch"#,
    ),
    (
        "line = 1",
        "line = 2",
        "route 1: line = 2 is no line of 'exchange'",
    ),
    (
        r#"prefix = "2""#,
        r#"prefix = "1001""#,
        "route 0: 'exchange' has another route for 1001",
    ),
];

#[test]
fn each_is_told(rt: HostRuntime) -> Result<(), AllocError> {
    for rows in [USUAL, FORMS, RULES] {
        for (old, new, told) in rows {
            let text = edited(rt.alloc(), NETWORK, old, new)?;
            let checked = check_network(rt.alloc(), text.as_bytes())?;
            assert_eq!(rt; checked.text.trim_end(), *told);
        }
    }
    Ok(())
}
