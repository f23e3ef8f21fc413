//! The table of commands and their keys.

ghost use Rattle.std.specs.Prelude.{◌≡◌};
ghost use Rattle.ccsl_command.specs.Table.{command_text, key_text, required_keys, keys_of, relation_text};

/// A command.
#[derive(Clone, Copy)]
pub enum CommandName {
    Check,
    Simulate,
    Judge,
    Certify,
    Trial,
    Periodic,
    Explain,
    Session,
}

/// The key of a word `key=value`.
#[derive(Clone, Copy)]
pub enum Key {
    Spec,
    Policy,
    Seed,
    Steps,
    Trace,
    Cert,
    Workers,
    Clocks,
    Left,
    Right,
    Relation,
}

/// The name of a policy: how a step is chosen among those that are admissible.
#[derive(Clone, Copy)]
pub enum PolicyName {
    Min,
    Max,
    Seeded,
}

/// What is asked of two words: whether a relation holds between the filters, or which word the one on the other is.
#[derive(Clone, Copy)]
pub enum RelationName {
    Precedes,
    Subclock,
    Excludes,
    On,
}

impl CommandName {
    /// Its word on the command line.
    pub fn text(self) -> &'static str
        ensures { result.now ≡ command_text self }
    {
        match self {
            CommandName::Check => "check",
            CommandName::Simulate => "simulate",
            CommandName::Judge => "judge",
            CommandName::Certify => "certify",
            CommandName::Trial => "trial",
            CommandName::Periodic => "periodic",
            CommandName::Explain => "explain",
            CommandName::Session => "session",
        }
    }

    /// The keys that it needs, in the table's order.
    pub fn required_keys(self) -> &'static [Key]
        ensures { result.now ≡ required_keys self }
    {
        match self {
            CommandName::Check => &[Key::Spec],
            CommandName::Simulate => &[
                Key::Spec,
                Key::Policy,
                Key::Seed,
                Key::Steps,
                Key::Trace,
                Key::Cert,
            ],
            CommandName::Judge => &[Key::Spec, Key::Trace],
            CommandName::Certify => &[Key::Spec, Key::Trace, Key::Cert],
            CommandName::Trial => &[Key::Clocks, Key::Steps, Key::Seed, Key::Workers],
            CommandName::Periodic => &[Key::Left, Key::Right, Key::Relation],
            CommandName::Explain => &[Key::Spec, Key::Trace, Key::Cert],
            CommandName::Session => &[Key::Spec, Key::Policy, Key::Seed],
        }
    }

    /// The keys that it takes, in the table's order.
    pub fn keys(self) -> &'static [Key]
        ensures { result.now ≡ keys_of self }
    {
        match self {
            CommandName::Judge => &[Key::Spec, Key::Trace, Key::Workers],
            other => other.required_keys(),
        }
    }
}

impl Key {
    /// Its text before the `=`.
    pub fn text(self) -> &'static str
        ensures { result.now ≡ key_text self }
    {
        match self {
            Key::Spec => "spec",
            Key::Policy => "policy",
            Key::Seed => "seed",
            Key::Steps => "steps",
            Key::Trace => "trace",
            Key::Cert => "cert",
            Key::Workers => "workers",
            Key::Clocks => "clocks",
            Key::Left => "left",
            Key::Right => "right",
            Key::Relation => "relation",
        }
    }
}

impl RelationName {
    /// Its text behind `relation=`.
    pub fn text(self) -> &'static str
        ensures { result.now ≡ relation_text self }
    {
        match self {
            RelationName::Precedes => "precedes",
            RelationName::Subclock => "subclock",
            RelationName::Excludes => "excludes",
            RelationName::On => "on",
        }
    }
}
