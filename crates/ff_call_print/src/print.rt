// The commands `check` and `plan`, which print a network.
ghost use Rattle.std.specs.Prelude.{◌≡◌, IfOk};
ghost use Rattle.ff_net.specs.Tree.{tree_of};
ghost use Rattle.ff_call.specs.Counts.{Counts};
ghost use Rattle.ff_call.specs.Handling.{Handled};
ghost use Rattle.ff_call.specs.Texts.{version};
ghost use Rattle.ff_call_print.specs.Printing.{Printed, printed, Prints};

use ff_call::{Devices, Fault, Machine, Seen, read_given};
use ff_io::{Sink, write_all};
use ff_net::Checked;
use ff_ops::Op;
use ff_plan::{Queue, plan};
use ff_rec::NoMemory;
use ff_text::{print_net, print_plan};
use ff_words::Given;
use std::alloc::Global;

/// What is printed of a network.
#[derive(Clone, Copy, Debug, PartialEq, Eq)]
pub enum Form {
    /// The network itself, and a newline.
    Network,
    /// Its plan, a line for each unit.
    Plan,
}

/// Prints the network of the text that is given, in this form. No record is rejected.
pub fn print_given<M: Machine>(
    alloc: Global,
    given: Given,
    form: Form,
    devices: &mut Devices<M>,
) -> Result<u64, Fault>
    ensures handled { let seen = ⟦<Devices<M> as Seen>⟧.outside in
        Handled given (Printed form) (seen devices.old) (seen devices.new) result }
    ensures counts { let seen = ⟦<Devices<M> as Seen>⟧.outside in
        Counts (seen devices.old) (seen devices.new) result }
    ensures input { devices.new.input ≡ devices.old.input }
    ensures alone { devices.new.spawner ≡ devices.old.spawner }
    ensures err { devices.new.err ≡ devices.old.err }
{
    match read_given(alloc, &mut devices.files, given) {
        Ok(checked) => print(alloc, &checked, form, &mut devices.out),
        Err(fault) => Err(fault),
    }
}

// Writes a network in this form.
fn print<O: Sink>(
    alloc: Global,
    checked: &Checked<Op>,
    form: Form,
    out: &mut O,
) -> Result<u64, Fault>
    requires { checked.now.version ≡ version }
    ensures { Prints (printed form (tree_of checked.now.net)) (O.taken out.old) (O.taken out.new)
        (O.faults out.old) (O.faults out.new) result }
{
    let text = printed(alloc, checked, form)?;
    match write_all(out, &text) {
        Ok(()) => Ok(0),
        Err(_) => Err(Fault::Write),
    }
}

// That text. The rings of a plan don't show in it.
fn printed(alloc: Global, checked: &Checked<Op>, form: Form) -> Result<Vec<u8>, NoMemory>
    requires { checked.now.version ≡ version }
    ensures { IfOk result (λ text. text.items ≡ printed form (tree_of checked.now.net)) }
{
    let mut text = Vec::new(alloc);
    match form {
        Form::Network => {
            print_net(checked.net(), &mut text)?;
            text.push(b'\n')?;
        }
        Form::Plan => {
            let plan = plan(alloc, checked, 1, Queue::Ring)?;
            print_plan(&plan, checked, &mut text)?;
        }
    }
    Ok(text)
}
