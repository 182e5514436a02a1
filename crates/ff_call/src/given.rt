// The network of the text that a command is given.
ghost use Rattle.std.specs.Prelude.{◌≡◌, ℕ, IfOk, IfErr};
ghost use Rattle.ff_io.specs.Files.{KeepsAll};
ghost use Rattle.ff_net.specs.Tree.{tree_of};
ghost use Rattle.ff_call.specs.Counts.{Files as of_files, count_by, raised};
ghost use Rattle.ff_call.specs.Texts.{Breaks, IsGiven, IsGivenFault, IsSpelled, IsSpelledFault, KeepsRules, version};

use crate::fault::Fault;
use ff_io::{FileFault, Files};
use ff_net::{Checked, RuleFault, check};
use ff_ops::Op;
use ff_rec::LONGEST_TEXT;
use ff_text::{Described, ReadFault, read_net};
use ff_words::Given;
use std::alloc::Global;

/// The network of the text that is given, which keeps all rules.
pub fn read_given<F: Files>(
    alloc: Global,
    files: &mut F,
    given: Given,
) -> Result<Checked<Op>, Fault>
    ensures ok { IfOk result (λ checked. IsGiven (F.told files.old) given (tree_of checked.net)) }
    ensures version { IfOk result (λ checked. checked.version ≡ version) }
    ensures fault { IfErr result (IsGivenFault (F.told files.old) given) }
    ensures keeps { KeepsAll (F.told files.old) (F.told files.new) }
    ensures counts { F.faults files.new ≡ count_by (raised of_files) (F.faults files.old) result }
{
    match given {
        Given::Text(text) => read_text(alloc, text.as_str().as_bytes()),
        Given::File(name) => match files.load(name.as_str(), LONGEST_TEXT) {
            Ok(text) => read_text(alloc, &text),
            Err(FileFault::Failed) => Err(Fault::File(name)),
            Err(FileFault::TooLong) => Err(Fault::TooLong),
            Err(FileFault::NoMemory) => Err(Fault::NoMemory),
        },
    }
}

// The network of a text.
fn read_text(alloc: Global, text: &[u8]) -> Result<Checked<Op>, Fault>
    ensures spelled { IfOk result (λ checked. IsSpelled text.now (tree_of checked.net)) }
    ensures kept { IfOk result (λ checked. KeepsRules (tree_of checked.net)) }
    ensures version { IfOk result (λ checked. checked.version ≡ version) }
    ensures fault { IfErr result (IsSpelledFault text.now) }
    ensures none { IfErr result (λ fault. (n : ℕ) → raised of_files n fault ≡ n) }
{
    match read_net(alloc, text) {
        Ok(described) => match check_rules(described) {
            Ok(checked) => Ok(checked),
            Err(fault) => Err(Fault::BrokenRule(fault)),
        },
        Err(ReadFault::TooLong) => Err(Fault::TooLong),
        Err(ReadFault::Text { at, kind }) => Err(Fault::BadText { at, kind }),
        Err(ReadFault::NoMemory) => Err(Fault::NoMemory),
    }
}

// A network that keeps all rules.
fn check_rules(described: Described) -> Result<Checked<Op>, RuleFault>
    requires { described.version ≡ version }
    ensures net { IfOk result (λ checked. checked.net ≡ described.net) }
    ensures kept { IfOk result (λ checked. KeepsRules (tree_of checked.net)) }
    ensures version { IfOk result (λ checked. checked.version ≡ version) }
    ensures fault { IfErr result (λ fault. Breaks (tree_of described.net) fault) }
{
    match check(described.net, described.version) {
        Ok(checked) => Ok(checked),
        Err(fault) => Err(fault),
    }
}
