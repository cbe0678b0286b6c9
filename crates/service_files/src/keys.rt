//! The keys of the tables of a service file.
use file_tables::{Form, Key, TextForm};

const NAME: Form = Form::Text(TextForm::Name);

const TEXT: Form = Form::Text(TextForm::Any);

const DIGITS: Form = Form::Text(TextForm::Digits);

const MODE: Form = Form::Text(TextForm::OneOf(&["telnet", "raw"]));

const BUILT_IN: Form = Form::Text(TextForm::OneOf(&["echo", "time", "discard"]));

const AT_RESET: Form = Form::Text(TextForm::OneOf(&["clear", "continue"]));

const END: Form = Form::Text(TextForm::OneOf(&["dte", "dce"]));

const PARTNER: Form = Form::Text(TextForm::OneOf(&["findravolo", "xot", "udp"]));

const SMALL: Form = Form::Number(u16::MAX);

/// The keys that stand in no table, and the tables.
pub(crate) const DOCUMENT: [Key; 10] = [
    Key {
        name: "network",
        form: TEXT,
        needed: true,
    },
    Key {
        name: "control",
        form: TEXT,
        needed: false,
    },
    Key {
        name: "log",
        form: TEXT,
        needed: false,
    },
    Key {
        name: "terminals",
        form: Form::Tables,
        needed: false,
    },
    Key {
        name: "service",
        form: Form::Tables,
        needed: false,
    },
    Key {
        name: "caller",
        form: Form::Tables,
        needed: false,
    },
    Key {
        name: "limits",
        form: Form::Table,
        needed: false,
    },
    Key {
        name: "line",
        form: Form::Tables,
        needed: false,
    },
    Key {
        name: "web",
        form: Form::Table,
        needed: false,
    },
    Key {
        name: "capture",
        form: Form::Table,
        needed: false,
    },
];

pub(crate) const TERMINALS: [Key; 8] = [
    Key {
        name: "pad",
        form: NAME,
        needed: true,
    },
    Key {
        name: "listen",
        form: TEXT,
        needed: true,
    },
    Key {
        name: "first",
        form: SMALL,
        needed: false,
    },
    Key {
        name: "last",
        form: SMALL,
        needed: false,
    },
    Key {
        name: "mode",
        form: MODE,
        needed: false,
    },
    Key {
        name: "greeting",
        form: TEXT,
        needed: false,
    },
    Key {
        name: "idle",
        form: SMALL,
        needed: false,
    },
    Key {
        name: "allow",
        form: Form::Texts,
        needed: false,
    },
];

pub(crate) const SERVICE: [Key; 7] = [
    Key {
        name: "host",
        form: NAME,
        needed: true,
    },
    Key {
        name: "builtin",
        form: BUILT_IN,
        needed: false,
    },
    Key {
        name: "connect",
        form: TEXT,
        needed: false,
    },
    Key {
        name: "hello",
        form: Form::Flag,
        needed: false,
    },
    Key {
        name: "wait",
        form: SMALL,
        needed: false,
    },
    Key {
        name: "at_reset",
        form: AT_RESET,
        needed: false,
    },
    Key {
        name: "linger",
        form: SMALL,
        needed: false,
    },
];

pub(crate) const CALLER: [Key; 7] = [
    Key {
        name: "host",
        form: NAME,
        needed: true,
    },
    Key {
        name: "listen",
        form: TEXT,
        needed: true,
    },
    Key {
        name: "call",
        form: DIGITS,
        needed: true,
    },
    Key {
        name: "user_data",
        form: TEXT,
        needed: false,
    },
    Key {
        name: "at_reset",
        form: AT_RESET,
        needed: false,
    },
    Key {
        name: "linger",
        form: SMALL,
        needed: false,
    },
    Key {
        name: "allow",
        form: Form::Texts,
        needed: false,
    },
];

pub(crate) const LIMITS: [Key; 1] = [Key {
    name: "connections",
    form: Form::Number(1024),
    needed: false,
}];

pub(crate) const LINE: [Key; 10] = [
    Key {
        name: "line",
        form: SMALL,
        needed: true,
    },
    Key {
        name: "here",
        form: END,
        needed: true,
    },
    Key {
        name: "to",
        form: PARTNER,
        needed: true,
    },
    Key {
        name: "listen",
        form: TEXT,
        needed: false,
    },
    Key {
        name: "connect",
        form: TEXT,
        needed: false,
    },
    Key {
        name: "bind",
        form: TEXT,
        needed: false,
    },
    Key {
        name: "partner",
        form: TEXT,
        needed: false,
    },
    Key {
        name: "hold",
        form: SMALL,
        needed: false,
    },
    Key {
        name: "silence",
        form: SMALL,
        needed: false,
    },
    Key {
        name: "allow",
        form: Form::Texts,
        needed: false,
    },
];

pub(crate) const CAPTURE: [Key; 3] = [
    Key {
        name: "file",
        form: TEXT,
        needed: true,
    },
    Key {
        name: "size",
        form: Form::Number(4096),
        needed: false,
    },
    Key {
        name: "files",
        form: Form::Number(1024),
        needed: false,
    },
];

pub(crate) const WEB: [Key; 1] = [Key {
    name: "listen",
    form: TEXT,
    needed: true,
}];

/// The keys of `[[line]]` that only a line to another process has.
pub(crate) const OF_PROCESS: [&str; 2] = ["hold", "silence"];

/// The keys that only a line has over which connections are.
pub(crate) const OF_CONNECTIONS: [&str; 3] = ["listen", "connect", "allow"];

/// The keys that only a line has whose frames are datagrams.
pub(crate) const OF_DATAGRAMS: [&str; 2] = ["bind", "partner"];

/// The keys of `[[service]]` that only a service to connect to has.
pub(crate) const OF_CONNECT: [&str; 4] = ["hello", "wait", "at_reset", "linger"];
