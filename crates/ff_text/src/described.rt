// The network that a text describes.
ghost use Rattle.std.specs.Prelude.{◌≡◌, ◌≤◌, ◌∷◌, [], IfOk, OnOk, IfErr, length};
ghost use Rattle.ff_net.specs.Nodes.{opened};
ghost use Rattle.ff_net.specs.Tree.{tree_of};
ghost use Rattle.ff_ops.specs.Operation.{op_node};
ghost use Rattle.ff_text.specs.Cutting.{tokens};
ghost use Rattle.ff_text.specs.Faults.{text_of};
ghost use Rattle.ff_text.specs.Grammar.{IsNet, most_forms};
ghost use Rattle.ff_text.specs.PrintLaw.{CanPrint};
ghost use Rattle.ff_text.specs.Printing.{tokens_of};
ghost use Rattle.ff_text.specs.Reading.{IsStopped, IsReadFault};
ghost use Rattle.ff_text.specs.Seen.{context_of};
ghost use Rattle.ff_text.specs.Tokens.{Stop};
ghost use Rattle.ff_text.specs.Wants.{Finish};

use crate::context::Context;
use crate::misplaced::misplaced;
use crate::network::network;
use crate::{ReadFault, Reader, Token};
use ff_net::{Net, Version};
use ff_ops::Op;
use ff_rec::LONGEST_TEXT;
use std::alloc::Global;

/// A network, and the version of the text that describes it.
#[derive(Drop)]
pub struct Described {
    pub version: Version,
    pub net: Net<Op>,
}

/// How many forms may stand round one another: one less than the depth that a network may have.
const MOST_FORMS: usize = 15;

/// The network that a text spells, with its nodes before their first records.
pub fn read_net(alloc: Global, text: &[u8]) -> Result<Described, ReadFault>
    ensures version { IfOk result (λ d. d.version ≡ Version.One) }
    ensures net { IfOk result (λ d. IsNet (tree_of d.net) most_forms) }
    ensures text { IfOk result (λ d. tokens_of (tokens text.now) ≡ text_of (tree_of d.net)) }
    ensures opening { IfOk result (λ d. opened op_node (tree_of d.net) ≡ tree_of d.net) }
    ensures printable { IfOk result (λ d. CanPrint (tree_of d.net)) }
    ensures within { OnOk result (length text.now ≤ LONGEST_TEXT) }
    ensures fault { IfErr result (λ fault. IsReadFault text.now fault) }
{
    if text.len() > LONGEST_TEXT {
        return Err(ReadFault::TooLong);
    }
    let context = Context::new(alloc, Version::One);
    let mut reader = Reader::new(text);
    let net = network(alloc, &context, MOST_FORMS, &mut reader)?;
    finish(&context, &mut reader)?;
    Ok(Described {
        version: Version::One,
        net,
    })
}

// The end of the text.
fn finish(context: &Context, reader: &mut Reader) -> Result<(), ReadFault>
    ensures stopped { IfErr result (λ fault.
        IsStopped (context_of context.now) (Finish ∷ []) fault reader.old) }
    ensures text { OnOk result (tokens_of reader.old ≡ Stop ∷ []) }
{
    let spot = reader.next();
    match spot.token {
        Token::Stop => Ok(()),
        _ => Err(misplaced(context.version, spot)),
    }
}
