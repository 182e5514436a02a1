// The tasks of a program, by what came back for their operands.
ghost use Rattle.std.specs.Prelude.{◌≡◌, ◌<◌, suc, length, slice_get, Some};
ghost use Rattle.ff_prog.specs.Links.{links_at};
ghost use Rattle.ff_mdf_tasks.specs.ByLinks.{answer_in, has_come, operand_if, operand_value};
ghost use Rattle.ff_mdf_tasks.specs.ByLinks.{ready_linked, task_linked, value_linked};
ghost use Rattle.ff_mdf_tasks.specs.Queues.{ready_by};

use ff_mdf::{CheckedProgram, Link, Links, MdfAnswer, MdfOp, Operand, Statement, Value};

/// A task that can be done: its operands have their values.
#[derive(Clone, Copy, Debug, PartialEq, Eq)]
pub struct MdfTask {
    /// The number of its statement, counted from 1.
    pub number: u32,
    pub op: MdfOp,
    pub a: Value,
    pub b: Option<Value>,
    pub c: Option<Value>,
}

/// The task of statement `k`, counted from 0.
pub(crate) fn task_at(program: &CheckedProgram, answers: &[Option<MdfAnswer>], k: usize) -> MdfTask
    requires { k < length program.now }
    ensures { result
        ≡ task_linked (suc k) (answer_in answers.now) (slice_get program.now k)
        (links_at program.now k) }
{
    let statement = statement_at(program, k);
    let number = k as u32 + 1;
    task_of(number, answers, statement, links_of(program, k))
}

/// Whether statement `k`, counted from 0, is a task all of whose values are there.
pub(crate) fn is_ready(program: &CheckedProgram, answers: &[Option<MdfAnswer>], k: usize) -> bool
    requires { k < length program.now }
    ensures { result ≡ ready_by program.now (answer_in answers.now) k }
{
    let statement = statement_at(program, k);
    statement_is_ready(answers, statement, links_of(program, k))
}

/// The links of statement `k`, counted from 0.
pub(crate) fn links_of(program: &CheckedProgram, k: usize) -> Links
    requires { k < length program.now }
    ensures { result ≡ links_at program.now k }
{
    program.links()[k]
}

/// What a link leads to.
pub(crate) fn value_linked(answers: &[Option<MdfAnswer>], link: Option<Link>) -> Value
    ensures { result ≡ value_linked (answer_in answers.now) link }
{
    let Some(link) = link else {
        return Value::Bad;
    };
    match answer_at(answers, link) {
        Some(answer) if link.second => answer.second.unwrap_or(Value::Bad),
        Some(answer) => answer.first,
        None => Value::Bad,
    }
}

// Statement `k`, counted from 0.
fn statement_at(program: &CheckedProgram, k: usize) -> &Statement
    requires { k < length program.now }
    ensures at { slice_get program.now k ≡ Some result.now }
    ensures few { k < 65537 }
{
    &program.program().as_slice()[k]
}

// The task of this number that a statement is; `out` gives one that doesn't count.
fn task_of(
    number: u32,
    answers: &[Option<MdfAnswer>],
    statement: &Statement,
    links: Links,
) -> MdfTask
    ensures { result ≡ task_linked number (answer_in answers.now) (Some statement.now) links }
{
    match statement {
        Statement::Task { op, a, b, c, .. } => MdfTask {
            number,
            op: *op,
            a: operand_value(answers, a, links.a),
            b: operand_if(answers, b, links.b),
            c: operand_if(answers, c, links.c),
        },
        Statement::Out(_) => MdfTask {
            number,
            op: MdfOp::Copy,
            a: Value::Bad,
            b: None,
            c: None,
        },
    }
}

// Whether a statement is a task all of whose values are there.
fn statement_is_ready(answers: &[Option<MdfAnswer>], statement: &Statement, links: Links) -> bool
    ensures { result ≡ ready_linked (answer_in answers.now) (Some statement.now) links }
{
    match statement {
        Statement::Task { .. } => {
            has_come(answers, links.a) && has_come(answers, links.b) && has_come(answers, links.c)
        }
        Statement::Out(_) => false,
    }
}

// The value of an operand.
fn operand_value(answers: &[Option<MdfAnswer>], operand: &Operand, link: Option<Link>) -> Value
    ensures { result ≡ operand_value (answer_in answers.now) operand.now link }
{
    match operand {
        Operand::Name(_) => value_linked(answers, link),
        Operand::Num(n) => Value::Num(*n),
    }
}

// The value of an operand that may not be there.
fn operand_if(
    answers: &[Option<MdfAnswer>],
    operand: &Option<Operand>,
    link: Option<Link>,
) -> Option<Value>
    ensures { result ≡ operand_if (answer_in answers.now) operand.now link }
{
    match operand {
        Some(operand) => Some(operand_value(answers, operand, link)),
        None => None,
    }
}

// Whether what a link leads to, where there is one, is back.
fn has_come(answers: &[Option<MdfAnswer>], link: Option<Link>) -> bool
    ensures { result ≡ has_come (answer_in answers.now) link }
{
    match link {
        Some(link) => answer_at(answers, link).is_some(),
        None => true,
    }
}

// The answer of the task that a link leads to, where it is back.
fn answer_at(answers: &[Option<MdfAnswer>], link: Link) -> Option<MdfAnswer>
    ensures { result ≡ answer_in answers.now link.task }
{
    match answers.get(link.task as usize) {
        Some(answer) => *answer,
        None => None,
    }
}
