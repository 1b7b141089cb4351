// The source of a plain record. Records from one source usually begin with the same bytes.

ghost use Rattle.std.specs.Prelude.{◌≡◌, ◌^◌, ◌<◌, ◌++◌, length, All, IfSome};
ghost use Rattle.mq_trace.specs.Plain.{IsSource, IsSourceOf};

use crate::plain::{behind_byte, split_field};
use crate::row::find_source;
use mq_core::Network;

/// The source of a record.
#[derive(Clone, Copy)]
pub struct PlainSource<'a> {
    /// Its name as written in the text, with its quotes if it has them, and the comma after it.
    pub text: &'a [u8],
    /// Its node.
    pub node: u32,
}

/// The beginning of a record.
#[derive(Clone, Copy)]
pub struct SourceField<'a> {
    /// Its source.
    pub source: PlainSource<'a>,
    /// Whether the source isn't among the known ones.
    pub is_new: bool,
    /// The text after the comma.
    pub rest: &'a [u8],
}

// The source of a record, looked up in the network.
fn new_source<'a>(text: &'a [u8], net: &Network) -> Option<SourceField<'a>>
    requires { length net.now.nodes < 2 ^ 32 }
    ensures { IfSome result (λ field. IsSourceOf net.now text.now field.source field.rest.now) }
{
    let Some((name, behind)) = split_field(text) else {
        return None;
    };
    let Some(node) = find_source(net, name) else {
        return None;
    };
    let Some(rest) = behind_byte(b',', behind) else {
        return None;
    };
    let source = PlainSource {
        text: &text[..text.len() - rest.len()],
        node: node as u32,
    };
    Some(SourceField {
        source,
        is_new: true,
        rest,
    })
}

/// Returns the source of a record. The known ones are tried first, by the bytes with which their records began.
pub fn plain_source<'a>(
    text: &'a [u8],
    known: &[PlainSource<'a>],
    net: &Network,
) -> Option<SourceField<'a>>
    requires known { All (λ source. IsSource net.now source) known.now }
    requires nodes { length net.now.nodes < 2 ^ 32 }
    ensures { IfSome result (λ field. IsSourceOf net.now text.now field.source field.rest.now) }
{
    for source in known {
        if let Some(rest) = text.strip_prefix(source.text) {
            return Some(SourceField {
                source: *source,
                is_new: false,
                rest,
            });
        }
    }
    new_source(text, net)
}
