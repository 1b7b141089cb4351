// Why arguments are invalid.
/// Why the arguments are invalid.
#[derive(Clone, Copy, PartialEq, Eq)]
pub enum UsageFault {
    /// An argument is empty or an unknown option, an option is given twice or lacks its value,
    /// or more than two other arguments are left.
    Words,
    /// There aren't two names without `--made`, or there is a name with it.
    Form,
    /// The number of workers isn't a number from 1 to 64.
    Workers,
    /// The number of jobs in a block isn't a number from 1 to 65,536.
    Block,
    /// The number of the made input isn't a number from 0 to 18,446,744,073,709,551,615.
    Made,
    /// The form of the report isn't 1 or 2.
    Report,
}

/// Why there are no settings.
#[derive(Clone, Copy, PartialEq, Eq)]
pub enum WordsFault {
    /// The arguments are invalid.
    Usage(UsageFault),
    /// Memory ran out.
    Memory,
}
