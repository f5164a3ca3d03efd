//! Constraint items.
ghost use Rattle.std.specs.Prelude.{◌≡◌, ◌++◌, ◌∷◌, [], ◌==◌, ◌*ℤ◌, List, IfOk, OnOk, Some, None, map, find, flat_map, option_map, length, slice_get};
ghost use Rattle.std.specs.List.{AllByRecursion, list_all};
ghost use Rattle.fz_spec.specs.Constraints as meaning;
ghost use Rattle.fz_spec.specs.Signatures as signatures;
ghost use Rattle.fz_language.specs.declared.fault.RuleFault.TheVariants as rule;
ghost use Rattle.fz_language.specs.Annotations.{asks_whole};
ghost use Rattle.fz_language.specs.Entries.{with_value};
ghost use Rattle.fz_language.specs.Rules as rules;
ghost use Rattle.fz_language.specs.Rules.{at_places};
ghost use Rattle.fz_language.specs.Within.{ExpressionFits};
ghost use Rattle.fz_model.specs.Arguments.{argument_of};
ghost use Rattle.fz_syntax.specs.Trees as trees;
ghost use Rattle.fz_resolve.specs.Meant.{environment_of};
ghost use Rattle.fz_check.specs.Calls.{IsCall, IsSigned, IsRowed, IsTyped, AreArguments};
ghost use Rattle.fz_check.specs.Checked.{IsFirstOf, IsFirstFault};
ghost use Rattle.fz_check.specs.Rows.{row_of};

use crate::faults::{or_else, or_this};
use crate::rows::{is_unsupported, row_named};
use fz_language::fault::RuleFault;
use fz_model::{Argument, Constraint};
use fz_resolve::annotations::asks_whole;
use fz_resolve::resolve::resolve;
use fz_resolve::{Fault, Names, fault_at};
use fz_spec::asked::{Asked, Lengths};
use fz_spec::row::{Row, Signatures};
use fz_spec::term::Term;
use fz_syntax::floats::first_float_of_arguments;
use fz_syntax::{ConstraintItem, Expression};
use std::alloc::{AllocError, Global};

/// The constraint of an item, or the first rule that it breaks, but for the limits.
pub(crate) fn call<'a>(
    alloc: Global,
    names: &Names<'a>,
    item: &ConstraintItem<'a>,
) -> Result<Result<Constraint, Fault>, AllocError>
    requires { AllByRecursion ExpressionFits (map trees.expression_of item.now.arguments.items) }
    ensures { IfOk result (IsCall (environment_of names.now) (trees.constraint_item_of item.now)) }
{
    match row_named(item.name.bytes) {
        Some(row) => Ok(call_of_row(alloc, names, item, row)?),
        None => Ok(Err(unknown(item))),
    }
}

/// The fault of a constraint whose name isn't in the table.
fn unknown(item: &ConstraintItem<'_>) -> Fault
    ensures { let c = trees.constraint_item_of item.now in signatures.row_named c.name.bytes ≡ None
        → (others : List rules.Fault)
        → IsFirstFault (at_places rule.Unsupported (rules.named_unsupported c.name
        ++ flat_map rules.floats_of c.arguments)
        ++ (at_places rule.UnknownConstraint (rules.named_unknown c.name) ++ others)) result }
{
    let name = item.name;
    if is_unsupported(name.bytes) {
        return Fault {
            rule: RuleFault::Unsupported,
            at: name.at,
        };
    }
    let floats = fault_at(
        RuleFault::Unsupported,
        first_float_of_arguments(&item.arguments),
    );
    or_this(
        floats,
        Fault {
            rule: RuleFault::UnknownConstraint,
            at: name.at,
        },
    )
}

/// The constraint of an item whose name stands in this row of the table, or the first rule that it breaks.
fn call_of_row<'a>(
    alloc: Global,
    names: &Names<'a>,
    item: &ConstraintItem<'a>,
    row: &Row,
) -> Result<Result<Constraint, Fault>, AllocError>
    requires { AllByRecursion ExpressionFits (map trees.expression_of item.now.arguments.items) }
    ensures { let c = trees.constraint_item_of item.now in
        IfOk result (IsRowed (at_places rule.Unsupported (flat_map rules.floats_of c.arguments))
        (environment_of names.now) c (row_of row.now)) }
{
    let floats = fault_at(
        RuleFault::Unsupported,
        first_float_of_arguments(&item.arguments),
    );
    let arguments = item.arguments.as_slice();
    match signature_of(row.2, arguments.len()) {
        Some(signature) => Ok(signed(alloc, names, item, row, signature, floats)?),
        None => Ok(Err(or_this(
            floats,
            Fault {
                rule: RuleFault::WrongArity,
                at: item.name.at,
            },
        ))),
    }
}

/// Of the signatures of a constraint, that of that many arguments.
fn signature_of(signatures: Signatures, arity: usize) -> Option<&'static [Asked]>
    ensures { option_map (λ s. s.now) result
        ≡ find (λ (asked : List Asked). length asked == arity) (map (λ s. s.now) signatures.now) }
{
    for signature in signatures {
        if signature.len() == arity {
            return Some(signature);
        }
    }
    None
}

/// The constraint of an item whose arguments are as many as this signature asks, or the first rule that it breaks; floats among
/// them are told first.
fn signed<'a>(
    alloc: Global,
    names: &Names<'a>,
    item: &ConstraintItem<'a>,
    row: &Row,
    signature: &[Asked],
    floats: Option<Fault>,
) -> Result<Result<Constraint, Fault>, AllocError>
    requires fits { AllByRecursion ExpressionFits
        (map trees.expression_of item.now.arguments.items) }
    requires arity { length signature.now ≡ length item.now.arguments.items }
    ensures { (others : List rules.Fault) → IsFirstOf others floats
        → IfOk result (IsSigned others (environment_of names.now)
        (trees.constraint_item_of item.now) (row_of row.now) signature.now) }
{
    // Where all arguments are of the right types, each name is declared.
    match arguments_of(alloc, names, signature, &item.arguments)? {
        Ok(arguments) => Ok(typed(alloc, row, item, arguments, floats)?),
        Err(at) => Ok(Err(wrong(names, item, floats, at))),
    }
}

/// The first fault of an item whose first argument of a wrong type stands there; `floats` is the first of those that come before.
fn wrong<'a>(names: &Names<'a>, item: &ConstraintItem<'a>, floats: Option<Fault>, at: u32) -> Fault
    ensures { let c = trees.constraint_item_of item.now in
        let names_faults = at_places rule.UnknownName (flat_map
        (rules.unknown_of (environment_of names.now)) c.arguments) in
        (others behind : List rules.Fault) → IsFirstOf others floats
        → IsFirstFault behind (record { rule = rule.WrongType; at = at })
        → IsFirstFault ((others ++ names_faults) ++ behind) result }
{
    let unknown = fault_at(
        RuleFault::UnknownName,
        names.unknown_argument(&item.arguments),
    );
    or_this(
        or_else(floats, unknown),
        Fault {
            rule: RuleFault::WrongType,
            at,
        },
    )
}

/// The constraint of arguments of the right types, or the first fault.
fn typed(
    alloc: Global,
    row: &Row,
    item: &ConstraintItem<'_>,
    arguments: Vec<Argument>,
    early: Option<Fault>,
) -> Result<Result<Constraint, Fault>, AllocError>
    ensures { let c = trees.constraint_item_of item.now in
        IfOk result (IsTyped early (row_of row.now) c.name.at
        (map argument_of arguments.items) (asks_whole c.annotations)) }
{
    if let Some(fault) = early {
        return Ok(Err(fault));
    }
    let fit = fit_lengths(alloc, row.3, &arguments)?;
    if fit {
        let constraint = Constraint::new(row.1, arguments);
        return Ok(Ok(constraint.with_whole(asks_whole(&item.annotations))));
    }
    Ok(Err(Fault {
        rule: RuleFault::WrongLengths,
        at: item.name.at,
    }))
}

/// The arguments, or the place of the first of a wrong type.
fn arguments_of<'a>(
    alloc: Global,
    names: &Names<'a>,
    signature: &[Asked],
    expressions: &[Expression<'a>],
) -> Result<Result<Vec<Argument>, u32>, AllocError>
    requires arity { length signature.now ≡ length expressions.now }
    requires fits { AllByRecursion ExpressionFits (map trees.expression_of expressions.now) }
    ensures { IfOk result (λ made. AreArguments (environment_of names.now) signature.now
        (map trees.expression_of expressions.now)
        (with_value (λ arguments. map argument_of arguments.items) made)) }
{
    let mut arguments = Vec::with_capacity(alloc, signature.len())?;
    for i in 0..signature.len() {
        match resolve(alloc, names, signature[i], &expressions[i])? {
            Ok(argument) => arguments.push(argument)?,
            Err(at) => return Ok(Err(at)),
        }
    }
    Ok(Ok(arguments))
}

/// Whether the lists among arguments have the lengths that are asked.
fn fit_lengths(alloc: Global, asked: Lengths, arguments: &[Argument]) -> Result<bool, AllocError>
    ensures { IfOk result (λ fit. fit
        ≡ meaning.fit_lengths asked (map argument_of arguments.now)) }
{
    match asked {
        Lengths::Automaton => Ok(is_automaton(arguments)),
        Lengths::Any | Lengths::Equal | Lengths::Rows | Lengths::Behind => {
            let lengths = lengths_of(alloc, arguments)?;
            Ok(have_lengths(asked, &lengths))
        }
    }
}

/// Whether an automaton has a state, a symbol, and as many next states as there are of both.
fn is_automaton(arguments: &[Argument]) -> bool
    ensures { result ≡ meaning.is_automaton (map argument_of arguments.now) }
{
    match arguments {
        [
            _,
            Argument::One(Term::Num(states)),
            Argument::One(Term::Num(symbols)),
            Argument::Numbers(next),
            ..
        ] => {
            let length = next.as_slice().len() as i128;
            *states >= 1 && *symbols >= 1 && length == product(*states, *symbols)
        }
        _ => true,
    }
}

/// The product of two numbers.
fn product(a: i32, b: i32) -> i128
    ensures { result ≡ a *ℤ b }
{
    i128::from(a) * i128::from(b)
}

/// The lengths of the lists among arguments.
fn lengths_of(alloc: Global, arguments: &[Argument]) -> Result<Vec<usize>, AllocError>
    ensures { IfOk result (λ lengths. lengths.items
        ≡ meaning.list_lengths (map argument_of arguments.now)) }
{
    let mut lengths = Vec::new(alloc);
    for argument in arguments {
        push_length(&mut lengths, argument)?;
    }
    Ok(lengths)
}

/// Adds the length of an argument that is a list.
fn push_length(lengths: &mut Vec<usize>, argument: &Argument) -> Result<(), AllocError>
    ensures { OnOk result (lengths.new.items ≡ lengths.old.items
        ++ meaning.list_lengths (argument_of argument.now ∷ [])) }
{
    match argument {
        Argument::Numbers(numbers) => lengths.push(numbers.as_slice().len())?,
        Argument::Terms(terms) => lengths.push(terms.as_slice().len())?,
        Argument::One(_) | Argument::Set(_) => {}
    }
    Ok(())
}

/// Whether these are the lengths that are asked.
fn have_lengths(asked: Lengths, lengths: &[usize]) -> bool
    ensures { result ≡ signatures.have_lengths asked lengths.now }
{
    match (asked, lengths) {
        (Lengths::Equal, [first, rest @ ..]) => are_all(*first, rest),
        (Lengths::Rows, [first, second]) => *first > 0 && *second % *first == 0,
        (Lengths::Behind, [_, second, rest @ ..]) => are_all(*second, rest),
        _ => true,
    }
}

/// Whether all lengths are this one.
fn are_all(length: usize, lengths: &[usize]) -> bool
    ensures { result ≡ list_all (λ m. m == length) lengths.now }
{
    for other in lengths {
        if *other != length {
            return false;
        }
    }
    true
}
