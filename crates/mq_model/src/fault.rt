// Why a text isn't a valid model.
use mq_base::OutOfMemory;
use std::alloc::AllocError;

/// The first error in a text. Lines and words count from 1; inputs, by their port, and nodes, in order of declaration, from 0.
#[derive(Clone, Copy, PartialEq, Eq)]
pub enum ModelFault {
    /// The text has more than 65,536 bytes.
    TooLong,
    /// The line isn't a comment and contains a byte other than tab and the bytes 32 to 126.
    BadByte { line: u32 },
    /// The first line that is neither empty nor a comment is neither `model 1` nor `model 2`. If there is no such line, `line` is the line after the last.
    BadHead { line: u32 },
    /// The line isn't in the grammar. Its first `word` - 1 words begin a valid line, its first `word` words don't. If its end is missing, `word` is its
    /// number of words plus 1.
    /// `word` is 1 for a second line that begins with `bound`, and for a line of version 2 in a model of version 1.
    BadLine { line: u32, word: u32 },
    /// An earlier line declares a node of this name.
    NameTwice { line: u32 },
    /// The line declares the 65th node or names the 17th column.
    TooMany { line: u32 },
    /// No node has the input's name, or the node has no such output.
    UnknownInput { line: u32, input: u32 },
    /// An earlier input names the same output.
    OutputTaken { line: u32, input: u32 },
    /// No source is declared.
    NoSource,
    /// The node, declared by this line, is the first that is on a cycle or downstream of one.
    Cycle { line: u32, node: u32 },
    /// Memory ran out.
    Memory,
}

impl From<AllocError> for ModelFault {
    ghost use Rattle.mq_model.specs.declared.fault.ModelFault.TheVariants.{Memory};
    ghost use Rattle.std.specs.Prelude.{◌≡◌};

    ghost from_gives = { λ _ e. e ≡ Memory };

    fn from(_: AllocError) -> ModelFault {
        ModelFault::Memory
    }
}

impl From<OutOfMemory> for ModelFault {
    ghost use Rattle.mq_model.specs.declared.fault.ModelFault.TheVariants.{Memory};
    ghost use Rattle.std.specs.Prelude.{◌≡◌};

    ghost from_gives = { λ _ e. e ≡ Memory };

    fn from(_: OutOfMemory) -> ModelFault {
        ModelFault::Memory
    }
}
