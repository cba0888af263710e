//! The names that stand in the parts of an operation that are run, and those that it declares.
#![tactic(auto, using(crate::proofs::Gathered::pushed, crate::proofs::Gathered::joined, crate::proofs::Gathered::joined_three, crate::proofs::Gathered::regroup, crate::proofs::Gathered::one_statement, crate::proofs::Gathered::one_act, crate::proofs::Gathered::one_more_name))]

ghost use Rattle.std.specs.Prelude.{◌≡◌, ◌++◌, ◌∷◌, [], List, ℕ, IfOk, OnOk, map, flat_map};
ghost use Rattle.std.specs.Option.{option_map, option_map_or};
ghost use Rattle.lisa_tree.specs.Expressions.{expr_tree};
ghost use Rattle.lisa_tree.specs.Statements.{stmt_tree, stmt_trees};
ghost use Rattle.lisa_tree.specs.Activations.{act_tree, act_trees};
ghost use Rattle.lisa_tree.specs.Descriptions.{declare_tree, section_tree, description_tree};
ghost use Rattle.noted_names.specs.Standing.{Gathers, names_of, names_in};
ghost use Rattle.noted_names.specs.Standing.{in_expression, in_statement, in_statements};
ghost use Rattle.noted_names.specs.Standing.{in_act, in_acts, declared_by, in_section};

use lisa_tree::{Act, CodingPart, Declare, Description, Expr, Section, Stmt};
use lisa_words::Name;
use std::alloc::{AllocError, Global};

// The names of an expression, but for those of stages and fields.
#[cycle(expressions)]
fn add_expression<'a>(expression: &'a Expr, met: &mut Vec<&'a Name>) -> Result<(), AllocError>
    ensures { OnOk result (Gathers met.old.items met.new.items (in_expression (expr_tree expression.now))) }
{
    match expression {
        Expr::Named(name) => {
            met.push(name)?;
            Ok(())
        }
        Expr::Element(name, index) => {
            met.push(name)?;
            add_expression(index, met)?;
            Ok(())
        }
        Expr::Cast(_, value) => add_expression(value, met),
        Expr::Complement(value) => add_expression(value, met),
        Expr::Negate(value) => add_expression(value, met),
        Expr::Two(_, left, right) => {
            add_expression(left, met)?;
            add_expression(right, met)?;
            Ok(())
        }
        Expr::Choose(test, left, right) => {
            add_expression(test, met)?;
            add_expression(left, met)?;
            add_expression(right, met)?;
            Ok(())
        }
        _ => Ok(()),
    }
}

fn add_first<'a>(value: &'a Option<Expr>, met: &mut Vec<&'a Name>) -> Result<(), AllocError>
    ensures { OnOk result (Gathers met.old.items met.new.items (option_map_or in_expression (option_map expr_tree value.now) [])) }
{
    match value {
        None => Ok(()),
        Some(value) => add_expression(value, met),
    }
}

// The names of a statement. Nothing in the head of a loop is looked up.
#[cycle(statements)]
fn add_statement<'a>(statement: &'a Stmt, met: &mut Vec<&'a Name>) -> Result<(), AllocError>
    ensures { OnOk result (Gathers met.old.items met.new.items (in_statement (stmt_tree statement.now))) }
{
    match statement {
        Stmt::Block(all) => add_statements(all.as_slice(), met),
        Stmt::Local(_, _, value) => add_first(value, met),
        Stmt::Assign(place, value) => {
            add_expression(place, met)?;
            add_expression(value, met)?;
            Ok(())
        }
        Stmt::If(test, chosen, other) => {
            add_expression(test, met)?;
            add_statement(chosen, met)?;
            match other {
                None => Ok(()),
                Some(other) => {
                    add_statement(other, met)?;
                    Ok(())
                }
            }
        }
        Stmt::While(test, body) => {
            add_expression(test, met)?;
            add_statement(body, met)?;
            Ok(())
        }
        Stmt::For(_, body) => add_statement(body, met),
        Stmt::Call(name) => {
            met.push(name)?;
            Ok(())
        }
        _ => Ok(()),
    }
}

#[cycle(statements)]
fn add_statements<'a>(all: &'a [Stmt], met: &mut Vec<&'a Name>) -> Result<(), AllocError>
    ensures { OnOk result (Gathers met.old.items met.new.items (in_statements (stmt_trees all.now))) }
{
    'each: for statement in all {
        add_statement(statement, met)?;
    }
    Ok(())
}

// The names of the conditions of an ACTIVATION.
#[cycle(acts)]
fn add_act<'a>(act: &'a Act, met: &mut Vec<&'a Name>) -> Result<(), AllocError>
    ensures { OnOk result (Gathers met.old.items met.new.items (in_act (act_tree act.now))) }
{
    match act {
        Act::Start(_) => Ok(()),
        Act::Choose(test, chosen, other) => {
            add_expression(test, met)?;
            add_acts(chosen, met)?;
            match other {
                None => Ok(()),
                Some(other) => {
                    add_acts(other, met)?;
                    Ok(())
                }
            }
        }
    }
}

#[cycle(acts)]
fn add_acts<'a>(acts: &'a [Act], met: &mut Vec<&'a Name>) -> Result<(), AllocError>
    ensures { OnOk result (Gathers met.old.items met.new.items (in_acts (act_trees acts.now))) }
{
    'each: for act in acts {
        add_act(act, met)?;
    }
    Ok(())
}

fn add_names<'a>(names: &'a [Name], met: &mut Vec<&'a Name>) -> Result<(), AllocError>
    ensures { OnOk result (Gathers met.old.items met.new.items names.now) }
{
    'each: for name in names {
        met.push(name)?;
    }
    Ok(())
}

// The names of instances.
fn add_instances<'a>(pairs: &'a [(Name, Name)], met: &mut Vec<&'a Name>) -> Result<(), AllocError>
    ensures { OnOk result (Gathers met.old.items met.new.items (map (λ pair. pair.0) pairs.now)) }
{
    'each: for (name, _operation) in pairs {
        met.push(name)?;
    }
    Ok(())
}

fn add_declare<'a>(declare: &'a Declare, met: &mut Vec<&'a Name>) -> Result<(), AllocError>
    ensures { OnOk result (Gathers met.old.items met.new.items (declared_by (declare_tree declare.now))) }
{
    match declare {
        Declare::Group(names, _) => add_names(names, met),
        Declare::Instance(pairs) => add_instances(pairs, met),
        Declare::Label(names) => add_names(names, met),
        Declare::Reference(names) => add_names(names, met),
    }
}

fn add_declares<'a>(all: &'a [Declare], met: &mut Vec<&'a Name>) -> Result<(), AllocError>
    ensures { OnOk result (Gathers met.old.items met.new.items (flat_map declared_by (map declare_tree all.now))) }
{
    'each: for declare in all {
        add_declare(declare, met)?;
    }
    Ok(())
}

fn add_section<'a>(section: &'a Section, met: &mut Vec<&'a Name>) -> Result<(), AllocError>
    ensures { OnOk result (Gathers met.old.items met.new.items (in_section (section_tree section.now))) }
{
    match section {
        Section::Declare(all) => add_declares(all, met),
        Section::Behavior(all) => add_statements(all.as_slice(), met),
        Section::Expression(value) => add_expression(value, met),
        Section::Activation(acts) => add_acts(acts, met),
        Section::Coding(CodingPart::Root(place, _)) => add_expression(place, met),
        _ => Ok(()),
    }
}

fn add_sections<'a>(sections: &'a [Section], met: &mut Vec<&'a Name>) -> Result<(), AllocError>
    ensures { OnOk result (Gathers met.old.items met.new.items (flat_map in_section (map section_tree sections.now))) }
{
    'each: for section in sections {
        add_section(section, met)?;
    }
    Ok(())
}

/// The names that stand in an operation where it is run, and those that it declares, as often as
/// each stands there.
pub(crate) fn met_in(
    alloc: Global,
    description: &Description,
    operation: usize,
) -> Result<Vec<&Name>, AllocError>
    ensures { IfOk result (λ met. names_of met.items ≡ names_in (description_tree description.now) operation) }
{
    let mut met = Vec::new(alloc);
    if operation < description.operations.len() {
        add_sections(&description.operations[operation].sections, &mut met)?;
    }
    Ok(met)
}
