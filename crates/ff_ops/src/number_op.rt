// Operations on a number in a field.
ghost use Rattle.std.specs.Prelude.{◌≡◌, ◌≤◌, length, IfOk, OnSome};
ghost use Rattle.ff_ops.specs.Answered.{answered};
ghost use Rattle.ff_ops.specs.Fates.{settled};
ghost use Rattle.ff_ops.specs.NumberOps.{answer_for, same_if, becomes, decided, number_answer};

mod answer;
mod arithmetic;

use crate::Fate;
use answer::Answer;
use arithmetic::{difference, halves, negated, product, quotient, remainder, sum};
use ff_node::{Class, Next, Node, Sends};
use ff_rec::{Cmp, NoMemory, Record};

/// An operation that works on the number in a field. It rejects a record whose field isn't there or isn't a number, or
/// whose result is out of range.
#[derive(Clone, Copy, Debug, PartialEq, Eq)]
pub struct NumberOp {
    /// The field whose number is read, and changed; counted from 1.
    pub field: usize,
    pub rule: NumberRule,
}

/// What becomes of the number in the field.
#[derive(Clone, Copy, Debug, PartialEq, Eq)]
pub enum NumberRule {
    /// It becomes the sum of it and another.
    Add(i64),
    /// It becomes the difference to another.
    Sub(i64),
    Mul(i64),
    /// It becomes the quotient towards zero.
    Div(i64),
    /// It becomes what that quotient leaves.
    Rem(i64),
    Neg,
    /// The record is sent where the number compares so.
    If(Cmp, i64),
    /// The record is sent twice: with half of the number, rounded down, and with the rest.
    Halve,
    /// It becomes the sum of it and the number in another field.
    Plus(usize),
}

impl NumberRule {
    // What becomes of a record with the number `x` in the field, or none where it is rejected.
    fn answer(self, r: &Record, x: i64) -> Option<Answer>
        ensures { result ≡ answer_for self r.now x }
    {
        match self {
            NumberRule::Add(k) => becomes(sum(x, k)),
            NumberRule::Sub(k) => becomes(difference(x, k)),
            NumberRule::Mul(k) => becomes(product(x, k)),
            NumberRule::Div(k) => becomes(quotient(x, k)),
            NumberRule::Rem(k) => becomes(remainder(x, k)),
            NumberRule::Neg => becomes(negated(x)),
            NumberRule::If(cmp, k) => Some(same_if(cmp.holds(x, k))),
            NumberRule::Halve => {
                let (half, rest) = halves(x);
                Some(Answer::Halves(half, rest))
            }
            NumberRule::Plus(other) => becomes(sum(x, r.number(other)?)),
        }
    }
}

impl NumberOp {
    // What becomes of a record, or none where it is rejected.
    fn decide(&self, r: &Record) -> Option<Answer>
        ensures answer { result ≡ decided self.now r.now }
        ensures low { OnSome result (1 ≤ self.now.field) }
        ensures high { OnSome result (self.now.field ≤ length r.now) }
    {
        let x = r.number(self.field)?;
        self.rule.answer(r, x)
    }
}

impl NumberOp {
    // Sends the first of two records, and makes the record the one that is sent behind it.
    fn answer(&self, r: &mut Record, out: &mut Sends) -> Result<Fate, NoMemory>
        ensures { IfOk result (λ fate. settled fate out.new r.new
            ≡ answered out.old (number_answer self.now r.old) r.old) }
    {
        match self.decide(r) {
            Some(answer) => answer.make(self.field, r, out),
            None => Ok(Fate::Rejected),
        }
    }
}

// The answer that a number takes the place of the one in the field, where there is one.
fn becomes(n: Option<i64>) -> Option<Answer>
    ensures { result ≡ becomes n }
{
    Some(Answer::Becomes(n?))
}

// The answer that the record is sent where a test passes.
fn same_if(passes: bool) -> Answer
    ensures { result ≡ same_if passes }
{
    if passes {
        Answer::Same
    } else {
        Answer::Nothing
    }
}

impl Node for NumberOp {
    ghost use Rattle.std.specs.Prelude.{refl};
    ghost use Rattle.ff_ops.specs.NumberOps.{number_node};
    ghost use Rattle.ff_ops.specs.NumberLaws.{number_keeps_kind, number_class_law};

    ghost does = { number_node };

    ghost keeps_kind = { number_keeps_kind };

    ghost class_law = { number_class_law };

    fn class(&self) -> Class {
        Class::Plain
    }

    fn copy(&self) -> Result<NumberOp, NoMemory> {
        Ok(*self)
    }

    fn svc_init(&mut self) {}

    fn svc(&mut self, r: Record, out: &mut Sends) -> Result<Next, NoMemory> {
        let mut r = r;
        let fate = self.answer(&mut r, out)?;
        fate.settle(r, out)?;
        Ok(Next::GoOn)
    }

    fn eos_notify(&mut self, _out: &mut Sends) -> Result<(), NoMemory> {
        Ok(())
    }

    fn svc_end(&mut self) {}
}
