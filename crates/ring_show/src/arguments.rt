//! The arguments of the subcommands.
use clap::{Arg, ArgAction, value_parser};
use std::alloc::Global;

/// The kind of value that an argument takes.
#[derive(Clone, Copy)]
enum Kind {
    /// The name of a file, which must be given.
    Name,
    /// An option with a number of bytes. The help calls the value by this name.
    Bytes(&'static str),
    /// An option with a decimal number. The help calls the value by this name.
    Number(&'static str),
    /// The name of a file, which may be left out.
    Optional,
    /// An option with a text. The help calls the value by this name.
    Text(&'static str),
    /// An option with one of these words. The last word is the default.
    Choice(&'static [&'static str], &'static str),
    /// An option without a value.
    Flag,
}

/// An argument of some subcommands.
#[derive(Clone, Copy)]
pub struct Argument {
    /// The names of these subcommands.
    of: &'static str,
    name: &'static str,
    kind: Kind,
    help: &'static str,
}

/// All arguments, in the order of the help.
pub static ARGUMENTS: [Argument; 24] = [
    Argument {
        of: "ring board counters cnc recover",
        name: "limit",
        kind: Kind::Number("N"),
        help: "List at most this many; all are counted",
    },
    Argument {
        of: "watch",
        name: "limit",
        kind: Kind::Number("N"),
        help: "List at most this many of each; all are counted [default: 8]",
    },
    Argument {
        of: "ring board counters cnc watch",
        name: "width",
        kind: Kind::Number("N"),
        help: "Draw a buffer in at most this many pieces [default: what COLUMNS has room for at a terminal, or 64]",
    },
    Argument {
        of: "ring board counters cnc recover",
        name: "bodies",
        kind: Kind::Choice(&["hex", "text", "none"], "hex"),
        help: "How bytes are shown",
    },
    Argument {
        of: "ring board counters cnc watch",
        name: "format",
        kind: Kind::Choice(&["table", "json", "prometheus"], "table"),
        help: "A table, JSON, or the text format of Prometheus",
    },
    Argument {
        of: "find",
        name: "format",
        kind: Kind::Choice(&["table", "json"], "table"),
        help: "Lines for people, or an object of JSON a line",
    },
    Argument {
        of: "recover",
        name: "format",
        kind: Kind::Choice(&["table", "json"], "table"),
        help: "A table or JSON",
    },
    Argument {
        of: "ring board counters recover",
        name: "at",
        kind: Kind::Bytes("BYTES"),
        help: "Where the copy begins in the file, in bytes, decimal or 0x.. [default: 0]",
    },
    Argument {
        of: "ring board counters recover",
        name: "length",
        kind: Kind::Bytes("BYTES"),
        help: "The number of its bytes [default: up to the end of the file]",
    },
    Argument {
        of: "ring board counters",
        name: "every",
        kind: Kind::Number("MS"),
        help: "Look again every MS milliseconds, and show rates",
    },
    Argument {
        of: "watch",
        name: "every",
        kind: Kind::Number("MS"),
        help: "Look again every MS milliseconds [default: 1000]",
    },
    Argument {
        of: "ring board counters watch",
        name: "times",
        kind: Kind::Number("N"),
        help: "End after N looks, at least 1 [default: looks again until it is interrupted]",
    },
    Argument {
        of: "ring find watch",
        name: "fail-if-blocked",
        kind: Kind::Flag,
        help: "The status is 1 if two looks saw a consumer blocked",
    },
    Argument {
        of: "ring board counters",
        name: "name",
        kind: Kind::Text("NAME"),
        help: "What it is called: a label of its metrics, and a member of its JSON",
    },
    Argument {
        of: "ring board recover",
        name: "FILE",
        kind: Kind::Name,
        help: "The file with the copy; - is standard input",
    },
    Argument {
        of: "ring board",
        name: "from",
        kind: Kind::Number("POSITION"),
        help: "List from this position on, the start of a record",
    },
    Argument {
        of: "ring recover",
        name: "bodies-at",
        kind: Kind::Bytes("BYTES"),
        help: "Where the bodies begin in the file, if they lie apart from the ring's words",
    },
    Argument {
        of: "counters",
        name: "METADATA",
        kind: Kind::Name,
        help: "The file with the copy of the metadata, to which --at and --length belong",
    },
    Argument {
        of: "counters",
        name: "VALUES",
        kind: Kind::Optional,
        help: "The file with the copy of the values; it may be the same file. Without it they are not known",
    },
    Argument {
        of: "counters",
        name: "values-at",
        kind: Kind::Bytes("BYTES"),
        help: "Where the copy of the values begins in its file [default: 0]",
    },
    Argument {
        of: "counters",
        name: "values-length",
        kind: Kind::Bytes("BYTES"),
        help: "The number of its bytes [default: up to the end of the file]",
    },
    Argument {
        of: "counters",
        name: "from",
        kind: Kind::Number("ID"),
        help: "List from this id on",
    },
    Argument {
        of: "find watch",
        name: "MEMORY",
        kind: Kind::Name,
        help: "The number of a process, or a file",
    },
    Argument {
        of: "cnc",
        name: "FILE",
        kind: Kind::Name,
        help: "The file",
    },
];

impl Argument {
    /// Tests whether a subcommand has this argument.
    pub fn is_of(&self, subcommand: &str) -> bool {
        self.of.contains(subcommand)
    }

    /// Returns the argument in the form of `clap`.
    pub fn arg<'a>(&self, alloc: Global) -> Arg<'a> {
        let name = self.name;
        let action = if matches!(self.kind, Kind::Flag) {
            ArgAction::SetTrue
        } else {
            ArgAction::Set
        };
        let arg = Arg::new(alloc, name).action(action).help(self.help);
        match self.kind {
            Kind::Name => arg.required(true),
            Kind::Optional => arg,
            Kind::Flag => arg.long(name),
            Kind::Bytes(value) | Kind::Text(value) => arg.long(name).value_name(value),
            Kind::Number(value) => {
                arg.long(name)
                    .value_name(value)
                    .value_parser(value_parser!(u64))
            }
            Kind::Choice(choices, default) => {
                arg.long(name).value_parser(choices).default_value(default)
            }
        }
    }
}
