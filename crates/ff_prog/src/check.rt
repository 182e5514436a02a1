// Programs that keep the rules.
ghost use Rattle.std.specs.Prelude.{◌≡◌, ◌+◌, ◌<◌, ◌≤◌, length, None, IfOk, OnOk, IfErr};
ghost use Rattle.ff_prog.specs.Checking.{IsRuleFault, lowest_broken};
ghost use Rattle.ff_prog.specs.Linked.{IsLinked};

use crate::crowd::first_crowded;
use crate::linking::{first_unwritten_out, link_operands, link_outs, put_out};
use crate::rules::{first_bad_out, first_past_most, first_with_twins, has_out};
use crate::{Link, Links, Name, ProgFault, Program, Statement};
use std::alloc::Global;
use std::collections::HashMap;
use std::marker::Model;

/// A program that keeps the six rules, with where each of its operands gets its value from.
#[derive(Debug, Drop)]
pub struct CheckedProgram {
    program: Program,
    linked: Linked,
}

/// The links of the operands of each statement, and those of the names that are put out.
#[derive(Debug, Drop)]
struct Linked {
    links: Vec<Links>,
    outs: Vec<Option<Link>>,
}

impl Model for CheckedProgram {
    ghost use Rattle.std.specs.Prelude.{◌≡◌, List, None};
    ghost use Rattle.ff_prog.specs.declared.statement.Statement.{Statement};

    ghost Value = { List Statement };

    ghost use Rattle.ff_prog.specs.Checking.{lowest_broken};
    ghost use Rattle.ff_prog.specs.Linked.{IsLinked};

    ghost view = { λ c. c.program };

    ghost invariant = { λ c. (lowest_broken c.program ≡ None) × IsLinked c.program c.linked };
}

impl CheckedProgram {
    ghost use Rattle.ff_prog.specs.Links.{AreLinks, out_links};
    ghost use Rattle.ff_prog.specs.Writers.{out_names};

    /// The program.
    pub fn program(&self) -> &Program
        ensures program { result.now ≡ self.now }
        ensures kept { lowest_broken result.now ≡ None }
    {
        &self.program
    }

    /// The links of the operands of each statement; `out` has none.
    pub fn links(&self) -> &[Links]
        ensures links { AreLinks self.now result.now (length self.now) }
        ensures all { length result.now ≡ length self.now }
    {
        self.linked.links.as_slice()
    }

    /// The names that are put out, in their order.
    pub fn out_names(&self) -> &[Name]
        ensures { result.now ≡ out_names self.now }
    {
        put_out(self.program.as_slice())
    }

    /// The links of these names.
    pub fn out_links(&self) -> &[Option<Link>]
        ensures { result.now ≡ out_links self.now }
    {
        self.linked.outs.as_slice()
    }
}

/// The program, where it keeps the rules.
pub fn check_program(alloc: Global, program: Program) -> Result<CheckedProgram, ProgFault>
    ensures ok { IfOk result (λ p. p ≡ program) }
    ensures kept { OnOk result (lowest_broken program ≡ None) }
    ensures fault { IfErr result (λ fault. IsRuleFault program fault) }
{
    let linked = link_kept(alloc, program.as_slice())?;
    Ok(CheckedProgram { program, linked })
}

// The links of statements that keep the rules.
fn link_kept(alloc: Global, statements: &[Statement]) -> Result<Linked, ProgFault>
    requires few { length statements.now ≤ 65537 }
    ensures linked { IfOk result (λ linked. IsLinked statements.now linked) }
    ensures kept { OnOk result (lowest_broken statements.now ≡ None) }
    ensures fault { IfErr result (λ fault. IsRuleFault statements.now fault) }
{
    if let Some(k) = first_past_most(statements) {
        return Err(broken(1, k));
    }
    if let Some(k) = first_crowded(alloc, statements)? {
        return Err(broken(2, k));
    }
    let mut writers = HashMap::new(alloc);
    let mut links = Vec::with_capacity(alloc, statements.len())?;
    if let Some(k) = link_operands(statements, &mut writers, &mut links)? {
        return Err(broken(3, k));
    }
    if let Some(k) = first_with_twins(statements) {
        return Err(broken(4, k));
    }
    if let Some(k) = first_bad_out(statements) {
        return Err(broken(5, k));
    }
    if !has_out(statements) {
        return Err(ProgFault::Rule {
            rule: 5,
            statement: 0,
        });
    }
    if let Some(k) = first_unwritten_out(statements, &writers) {
        return Err(broken(6, k));
    }
    let outs = link_outs(alloc, statements, &writers)?;
    Ok(Linked { links, outs })
}

// A rule that is broken at statement `k`, counted from 0.
fn broken(rule: u8, k: usize) -> ProgFault
    requires { k < 65537 }
    ensures { result ≡ ProgFault.Rule rule (k + 1) }
{
    ProgFault::Rule {
        rule,
        statement: k as u32 + 1,
    }
}
