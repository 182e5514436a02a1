// The tasks of a program, done one after another on one thread.
ghost use Rattle.std.specs.Prelude.{◌≡◌, ◌≤◌, length, Some, IfOk};
ghost use Rattle.ff_mdf.specs.Answers.{AreAnswers};
ghost use Rattle.ff_mdf.specs.Linked.{linked, linked_answer, linked_if, linked_value};
ghost use Rattle.ff_mdf.specs.Stores.{store};

use crate::{CheckedProgram, Link, Links, MdfAnswer, Operand, Statement, Store, Value, apply};
use ff_rec::NoMemory;
use std::alloc::Global;

/// The store of a program, by its tasks in program order.
pub fn one_thread(alloc: Global, program: &CheckedProgram) -> Result<Store, NoMemory>
    ensures { IfOk result (λ s. s ≡ store program.now) }
{
    let answers = all_answers(alloc, program)?;
    let names = program.out_names();
    let links = program.out_links();
    let mut store = Store::with_capacity(alloc, names.len())?;
    for k in 0..names.len() {
        store.push(&names[k], linked(answers.as_slice(), links[k]))?;
    }
    Ok(store)
}

// What the statements give, each by the answers of those before it.
fn all_answers(alloc: Global, program: &CheckedProgram) -> Result<Vec<MdfAnswer>, NoMemory>
    ensures { IfOk result (λ v. AreAnswers program.now v.items (length program.now)) }
{
    let statements = program.program().as_slice();
    let links = program.links();
    let mut answers = Vec::with_capacity(alloc, statements.len())?;
    for k in 0..statements.len() {
        let answer = answer_of(answers.as_slice(), &statements[k], links[k]);
        answers.push(answer)?;
    }
    Ok(answers)
}

// What a statement gives, by the answers of those before it.
fn answer_of(answers: &[MdfAnswer], statement: &Statement, links: Links) -> MdfAnswer
    ensures { result ≡ linked_answer answers.now (Some statement.now) links }
{
    match statement {
        Statement::Task { op, a, b, c, .. } => {
            let a = linked_value(answers, a, links.a);
            let b = linked_if(answers, b, links.b);
            let c = linked_if(answers, c, links.c);
            apply(*op, a, b, c)
        }
        Statement::Out(_) => MdfAnswer {
            first: Value::Bad,
            second: None,
        },
    }
}

// The value of an operand.
fn linked_value(answers: &[MdfAnswer], operand: &Operand, link: Option<Link>) -> Value
    ensures { result ≡ linked_value answers.now operand.now link }
{
    match operand {
        Operand::Name(_) => linked(answers, link),
        Operand::Num(n) => Value::Num(*n),
    }
}

// The value of an operand that may not be there.
fn linked_if(answers: &[MdfAnswer], operand: &Option<Operand>, link: Option<Link>) -> Option<Value>
    ensures { result ≡ linked_if answers.now operand.now link }
{
    match operand {
        Some(operand) => Some(linked_value(answers, operand, link)),
        None => None,
    }
}

// What a task gave to one of its names.
fn linked(answers: &[MdfAnswer], link: Option<Link>) -> Value
    ensures { result ≡ linked answers.now link }
{
    let Some(link) = link else {
        return Value::Bad;
    };
    match answers.get(link.task as usize) {
        Some(answer) if link.second => answer.second.unwrap_or(Value::Bad),
        Some(answer) => answer.first,
        None => Value::Bad,
    }
}
