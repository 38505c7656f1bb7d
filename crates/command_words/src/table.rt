//! The table of the command line: a row for each command, and what each option takes.

ghost use Rattle.std.specs.Prelude.{◌≡◌, ℕ, Bool, Option};
ghost use Rattle.command_words.specs.Table.{verb_named, row_of, setting_named, taken_by, takes_value, allows, plain_at, plain_count};

use arc_num::{MAX_ITEMS, MAX_SPLITS, MAX_WORKERS};

/// A command, by its word.
#[derive(Clone, Copy, Debug)]
pub enum Verb {
    Compile,
    Solve,
    Check,
    Export,
    Extract,
    Bound,
    Make,
}

/// What a plain word of a command stands for.
#[derive(Clone, Copy, Debug)]
pub enum PlainWord {
    /// The name of an instance, which is read.
    Instance,
    /// The name of a certificate, which is read.
    Certificate,
    /// The name of a solution, which is read.
    Solution,
    /// A number in this range, both ends included.
    Number { least: u64, most: u64 },
}

/// An option.
#[derive(Clone, Copy, Debug)]
pub enum Setting {
    /// `--mvp`: the instance is in the `.mvp` layout.
    Mvp,
    /// `--joint`: one graph for all types.
    Joint,
    /// `--nodes`: the splits that are granted.
    Nodes,
    /// `--cert`: the name under which a certificate is written.
    Cert,
    /// `--workers`: the threads that work at once.
    Workers,
}

/// What an option takes behind it.
#[derive(Clone, Copy, Debug)]
pub enum Takes {
    Nothing,
    /// A number in this range, both ends included.
    Number { least: u64, most: u64 },
    /// A name, which is not `-`.
    Name,
}

/// The plain words of a command, in order, and its options.
#[derive(Clone, Copy, Debug)]
pub struct Shape {
    pub first: PlainWord,
    pub second: Option<PlainWord>,
    pub mvp: bool,
    pub joint: bool,
    pub nodes: bool,
    pub cert: bool,
    pub workers: bool,
}

/// What is known of a command before its words are read.
#[derive(Clone, Copy, Debug)]
pub struct Row {
    pub shape: Shape,
    /// Whether the graphs of the instance are made.
    pub makes_graphs: bool,
}

/// An instance, in either layout.
const INSTANCE: Shape = Shape {
    first: PlainWord::Instance,
    second: None,
    mvp: true,
    joint: false,
    nodes: false,
    cert: false,
    workers: false,
};

/// An instance whose model may be over one graph for all types.
const EXPORTED_INSTANCE: Shape = Shape {
    joint: true,
    ..INSTANCE
};

/// An instance that several threads may work on.
const SHARED_INSTANCE: Shape = Shape {
    workers: true,
    ..INSTANCE
};

/// An instance and a certificate for it, which several threads may work on.
const CERTIFIED_INSTANCE: Shape = Shape {
    second: Some(PlainWord::Certificate),
    ..SHARED_INSTANCE
};

/// An instance, and a solution of its model.
const SOLVED_INSTANCE: Shape = Shape {
    second: Some(PlainWord::Solution),
    ..INSTANCE
};

/// An instance whose certificate may be written.
const CERTIFIABLE_INSTANCE: Shape = Shape {
    cert: true,
    ..INSTANCE
};

/// An instance that a search is made on, whose certificate may be written.
const SEARCHED_INSTANCE: Shape = Shape {
    nodes: true,
    cert: true,
    ..SHARED_INSTANCE
};

/// An instance that is generated: the seed, and how many items it has.
const GENERATED_INSTANCE: Shape = Shape {
    first: PlainWord::Number {
        least: 0,
        most: u64::MAX,
    },
    second: Some(PlainWord::Number {
        least: 1,
        most: MAX_ITEMS as u64,
    }),
    mvp: false,
    joint: false,
    nodes: true,
    cert: false,
    workers: true,
};

impl Verb {
    /// The command that a word names.
    pub fn named(word: &str) -> Option<Self>
        ensures { result ≡ verb_named word.now }
    {
        match word {
            "compile" => Some(Verb::Compile),
            "solve" => Some(Verb::Solve),
            "check" => Some(Verb::Check),
            "export" => Some(Verb::Export),
            "extract" => Some(Verb::Extract),
            "bound" => Some(Verb::Bound),
            "make" => Some(Verb::Make),
            _ => None,
        }
    }

    /// The command's row of the table.
    pub fn row(self) -> Row
        ensures { result ≡ row_of self }
    {
        match self {
            Verb::Compile => Row {
                shape: SHARED_INSTANCE,
                makes_graphs: true,
            },
            Verb::Solve => Row {
                shape: SEARCHED_INSTANCE,
                makes_graphs: true,
            },
            Verb::Check => Row {
                shape: CERTIFIED_INSTANCE,
                makes_graphs: true,
            },
            Verb::Export => Row {
                shape: EXPORTED_INSTANCE,
                makes_graphs: true,
            },
            Verb::Extract => Row {
                shape: SOLVED_INSTANCE,
                makes_graphs: true,
            },
            Verb::Bound => Row {
                shape: CERTIFIABLE_INSTANCE,
                makes_graphs: false,
            },
            Verb::Make => Row {
                shape: GENERATED_INSTANCE,
                makes_graphs: true,
            },
        }
    }
}

impl Setting {
    /// The option of this name, dashes included.
    pub fn named(name: &str) -> Option<Self>
        ensures { result ≡ setting_named name.now }
    {
        match name {
            "--mvp" => Some(Setting::Mvp),
            "--joint" => Some(Setting::Joint),
            "--nodes" => Some(Setting::Nodes),
            "--cert" => Some(Setting::Cert),
            "--workers" => Some(Setting::Workers),
            _ => None,
        }
    }

    /// What stands behind the option.
    pub fn takes(self) -> Takes
        ensures { result ≡ taken_by self }
    {
        match self {
            Setting::Mvp => Takes::Nothing,
            Setting::Joint => Takes::Nothing,
            Setting::Nodes => Takes::Number {
                least: 0,
                most: u64::from(MAX_SPLITS),
            },
            Setting::Cert => Takes::Name,
            Setting::Workers => Takes::Number {
                least: 1,
                most: u64::from(MAX_WORKERS),
            },
        }
    }

    /// Whether anything stands behind the option.
    pub fn needs_value(self) -> bool
        ensures { result ≡ takes_value (taken_by self) }
    {
        match self.takes() {
            Takes::Nothing => false,
            Takes::Number { .. } => true,
            Takes::Name => true,
        }
    }
}

impl Shape {
    /// Whether the command has this option.
    pub fn allows(self, setting: Setting) -> bool
        ensures { result ≡ allows self setting }
    {
        match setting {
            Setting::Mvp => self.mvp,
            Setting::Joint => self.joint,
            Setting::Nodes => self.nodes,
            Setting::Cert => self.cert,
            Setting::Workers => self.workers,
        }
    }

    /// What the plain word at this place, from 0, stands for, where there is one.
    pub fn plain_at(self, place: usize) -> Option<PlainWord>
        ensures { result ≡ plain_at self place }
    {
        if place == 0 {
            Some(self.first)
        } else if place == 1 {
            self.second
        } else {
            None
        }
    }

    /// The number of plain words.
    pub fn plain_count(self) -> usize
        ensures { result ≡ plain_count self }
    {
        if self.second.is_some() { 2 } else { 1 }
    }
}
