//! What a context is asked to run.

/// What a context runs, beside a list. A flush executes no command, and keeps the state.
#[derive(Clone, Copy, Debug)]
pub enum Task {
    /// What waits, and nothing else.
    Settle,
    /// The pending commands, and then those of the list; nothing waits then.
    Execute { restore: bool },
    /// The pending commands, and then those of the list: they may wait, and then run with what is executed next.
    Enqueue { restore: bool },
}
