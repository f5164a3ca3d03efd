//! What the items so far make.
ghost use Rattle.std.specs.Prelude.{◌≡◌, ◌≤◌, ◌++◌, ◌∷◌, [], IfOk, OnOk, Some, None, false, length, List, map, option_map, slice_get};
ghost use Rattle.std.specs.List.{AllByRecursion};
ghost use Rattle.fz_spec.specs.declared.limits.TheConstants.{VARIABLE_LIMIT};
ghost use Rattle.fz_language.specs.Entries.{Environment};
ghost use Rattle.fz_language.specs.Models as models;
ghost use Rattle.fz_language.specs.Rules as rules;
ghost use Rattle.fz_language.specs.Rules.{Counts, none_yet, call_faults};
ghost use Rattle.fz_language.specs.Trees as lang;
ghost use Rattle.fz_language.specs.Within.{ItemFits, VariableFits, ParameterFits, ArrayFits, TypeFits, ExpressionFits};
ghost use Rattle.fz_model.specs.Kept.{IsVariable};
ghost use Rattle.fz_syntax.specs.Trees as trees;
ghost use Rattle.fz_resolve.specs.Meant.{environment_of, meant};
ghost use Rattle.fz_language.specs.Annotations.{shape_among};
ghost use Rattle.fz_check.specs.Drafts.{scope_of, IsCounted, IsAdded, Adds};
ghost use Rattle.fz_check.specs.Entered.{IsArrayEntry};
ghost use Rattle.fz_check.specs.Parts.{scope};

use crate::call::call;
use crate::declared::{array_fault, parameter_fault, variable_fault};
use crate::entered::{array_entry, parameter_entry};
use crate::faults::room_behind;
use crate::parts::{push_array, push_bounds, push_scalar, push_value, value_of, variable_of};
use fz_model::{Constraint, Constraints, Output, Variable};
use fz_resolve::annotations::output_shape;
use fz_resolve::{Entry, Fault, Names};
use fz_syntax::types::kind_of;
use fz_syntax::{
    ArrayItem, ConstraintItem, Item, Name, ParameterItem, Room, ValueType, VariableItem,
};
use std::alloc::{AllocError, Global};

/// The parts of a model that the items so far make, what their names stand for, and how much more there may be.
#[derive(Drop)]
pub(crate) struct Draft<'a> {
    pub(crate) names: Names<'a>,
    pub(crate) variables: Vec<Variable>,
    pub(crate) constraints: Constraints,
    pub(crate) outputs: Vec<Output>,
    room: Room,
}

impl<'a> Draft<'a> {
    /// The draft of no items.
    pub(crate) fn new(alloc: Global) -> Draft<'a>
        ensures counted { IsCounted result none_yet }
        ensures scope { scope_of result ≡ models.empty_scope }
        ensures variables { result.variables.items ≡ [] }
        ensures constraints { result.constraints ≡ [] }
        ensures outputs { result.outputs.items ≡ [] }
    {
        Draft {
            names: Names::new(alloc),
            variables: Vec::new(alloc),
            constraints: Constraints::new(alloc),
            outputs: Vec::new(alloc),
            room: Room::whole(),
        }
    }

    /// Adds an item and lets it go, or gives the first rule that it breaks.
    pub(crate) fn take(
        &mut self,
        alloc: Global,
        item: Item<'a>,
    ) -> Result<Option<Fault>, AllocError>
        requires counted { (n : Counts) × IsCounted self.old n }
        requires fits { ItemFits (trees.item_of item) }
        ensures { (n : Counts) → IsCounted self.old n
            → IfOk result (IsAdded self.old self.new n (trees.item_of item.entry)) }
    {
        self.add(alloc, &item)
    }

    /// Adds an item, or gives the first rule that it breaks.
    pub(crate) fn add(
        &mut self,
        alloc: Global,
        item: &Item<'a>,
    ) -> Result<Option<Fault>, AllocError>
        requires counted { (n : Counts) × IsCounted self.old n }
        requires fits { ItemFits (trees.item_of item.now) }
        ensures { (n : Counts) → IsCounted self.old n
            → IfOk result (IsAdded self.old self.new n (trees.item_of item.now)) }
    {
        match item {
            Item::Predicate(_) => Ok(None),
            Item::Variable(variable) => self.variable(alloc, item, variable),
            Item::Parameter(parameter) => self.parameter(alloc, item, parameter),
            Item::Array(array) => self.array(alloc, item, array),
            Item::Constraint(constraint) => self.constraint(alloc, item, constraint),
        }
    }

    /// Adds a variable item, or tells the first rule that it breaks.
    fn variable(
        &mut self,
        alloc: Global,
        item: &Item<'a>,
        variable: &VariableItem<'a>,
    ) -> Result<Option<Fault>, AllocError>
        requires counted { (n : Counts) × IsCounted self.old n }
        requires fits { VariableFits (trees.variable_item_of variable.now) }
        requires item { trees.item_of item.now
            ≡ lang.Variable (trees.variable_item_of variable.now) }
        ensures { (n : Counts) → IsCounted self.old n
            → IfOk result (IsAdded self.old self.new n (trees.item_of item.now)) }
    {
        let fault = variable_fault(&self.names, variable);
        match room_behind(fault, self.room, item) {
            Ok(room) => {
                self.declare_variable(alloc, variable)?;
                self.room = room;
                Ok(None)
            }
            Err(fault) => Ok(Some(fault)),
        }
    }

    /// Adds a variable: with its name, the equation with its value, and its output.
    fn declare_variable(&mut self, alloc: Global, item: &VariableItem<'a>) -> Result<(), AllocError>
        requires few { length self.old.variables.items ≤ VARIABLE_LIMIT }
        requires fits { TypeFits (trees.type_of item.now.value_type) }
        requires variable { let t = trees.type_of item.now.value_type in
            IsVariable (record { kind = rules.kind_of t; set = models.type_set t }) }
        ensures { OnOk result (Adds self.old self.new (scope_of self.old) (lang.Variable
            (trees.variable_item_of item.now))) }
    {
        let number = self.variables.len() as u32;
        let kind = kind_of(&item.value_type);
        let value = value_of(&self.names, item);
        push_variable(alloc, &mut self.variables, &item.value_type)?;
        push_value(alloc, &mut self.constraints, kind, number, value)?;
        push_scalar(alloc, &mut self.outputs, item, number)?;
        self.names
            .declare(item.name, Entry::Variable { kind, number })
    }

    /// Adds a parameter item, or tells the first rule that it breaks.
    fn parameter(
        &mut self,
        alloc: Global,
        item: &Item<'a>,
        parameter: &ParameterItem<'a>,
    ) -> Result<Option<Fault>, AllocError>
        requires fits { ParameterFits (trees.parameter_item_of parameter.now) }
        requires item { trees.item_of item.now
            ≡ lang.Parameter (trees.parameter_item_of parameter.now) }
        ensures { (n : Counts) → IsCounted self.old n
            → IfOk result (IsAdded self.old self.new n (trees.item_of item.now)) }
    {
        let entry = parameter_entry(alloc, &self.names, parameter)?;
        let fault = parameter_fault(&self.names, parameter, &entry);
        match room_behind(fault, self.room, item) {
            Ok(room) => {
                self.declare_parameter(parameter.name, entry)?;
                self.room = room;
                Ok(None)
            }
            Err(fault) => Ok(Some(fault)),
        }
    }

    /// Adds a parameter to the names.
    fn declare_parameter(&mut self, name: Name<'a>, entry: Option<Entry>) -> Result<(), AllocError>
        ensures { OnOk result ((p : lang.ParameterItem) → p.name ≡ trees.name_of name.entry
            → option_map meant entry
            ≡ models.parameter_entry (environment_of self.old.names) p.value_type p.value
            → Adds self.old self.new (scope_of self.old) (lang.Parameter p)) }
    {
        match entry {
            Some(entry) => self.names.declare(name, entry),
            None => Ok(()),
        }
    }

    /// Adds an array item, or tells the first rule that it breaks.
    fn array(
        &mut self,
        alloc: Global,
        item: &Item<'a>,
        array: &ArrayItem<'a>,
    ) -> Result<Option<Fault>, AllocError>
        requires counted { (n : Counts) × IsCounted self.old n }
        requires fits { ArrayFits (trees.array_item_of array.now) }
        requires item { trees.item_of item.now ≡ lang.Array (trees.array_item_of array.now) }
        ensures { (n : Counts) → IsCounted self.old n
            → IfOk result (IsAdded self.old self.new n (trees.item_of item.now)) }
    {
        let shape = output_shape(alloc, &array.annotations)?;
        let entry = array_entry(alloc, &self.names, array)?;
        let fault = array_fault(&self.names, array, &shape, place_of(&entry));
        match room_behind(fault, self.room, item) {
            Ok(room) => {
                let Ok(entry) = entry else { unreachable!() };
                self.declare_array(alloc, array, entry, shape)?;
                self.room = room;
                Ok(None)
            }
            Err(fault) => Ok(Some(fault)),
        }
    }

    /// Adds an array: with its name, what binds its elements to a set, and its output.
    fn declare_array(
        &mut self,
        alloc: Global,
        item: &ArrayItem<'a>,
        entry: Entry,
        shape: Option<Vec<(i32, i32)>>,
    ) -> Result<(), AllocError>
        requires fits { TypeFits (trees.type_of item.now.value_type) }
        requires shape { option_map (λ ranges. ranges.items) shape
            ≡ shape_among (trees.annotations_of item.now.annotations.items) }
        ensures { let a = trees.array_item_of item.now in
            OnOk result (meant entry
            ≡ models.array_entry (environment_of self.old.names) a a.variable a.value_type
            → (a.variable ≡ false → shape_among a.annotations ≡ None)
            → Adds self.old self.new (scope_of self.old) (lang.Array a)) }
    {
        push_bounds(alloc, &mut self.constraints, item, &entry)?;
        push_array(alloc, &mut self.outputs, item, &entry, shape)?;
        self.names.declare(item.name, entry)?;
        Ok(())
    }

    /// Adds a constraint item, or tells the first rule that it breaks.
    fn constraint(
        &mut self,
        alloc: Global,
        item: &Item<'a>,
        constraint: &ConstraintItem<'a>,
    ) -> Result<Option<Fault>, AllocError>
        requires fits { AllByRecursion ExpressionFits
            (map trees.expression_of constraint.now.arguments.items) }
        requires item { trees.item_of item.now
            ≡ lang.Constraint (trees.constraint_item_of constraint.now) }
        ensures { (n : Counts) → IsCounted self.old n
            → IfOk result (IsAdded self.old self.new n (trees.item_of item.now)) }
    {
        match call(alloc, &self.names, constraint)? {
            Ok(made) => Ok(self.push_constraint(item, made)?),
            Err(fault) => Ok(Some(fault)),
        }
    }

    /// Adds a constraint, or tells the limit that its item goes over.
    fn push_constraint(
        &mut self,
        item: &Item<'a>,
        made: Constraint,
    ) -> Result<Option<Fault>, AllocError>
        ensures { IfOk result (λ fault. (n : Counts) (c : lang.ConstraintItem)
            → IsCounted self.old n → trees.item_of item.now ≡ lang.Constraint c
            → call_faults (environment_of self.old.names) c ≡ []
            → models.call_constraints (scope (environment_of self.old.names) 0) c ≡ made ∷ []
            → IsAdded self.old self.new n (trees.item_of item.now) fault) }
    {
        match room_behind(None, self.room, item) {
            Ok(room) => {
                self.constraints.push(made)?;
                self.room = room;
                Ok(None)
            }
            Err(fault) => Ok(Some(fault)),
        }
    }
}

/// The place of what is of a wrong type.
fn place_of(entry: &Result<Entry, u32>) -> Option<u32>
    ensures { (env : Environment) (a : lang.ArrayItem) → IsArrayEntry env a entry.now
        → result ≡ slice_get (rules.wrong_element env a.variable a.value_type a.list) 0 }
{
    match entry {
        Ok(_) => None,
        Err(at) => Some(*at),
    }
}

/// Adds a variable with the domain of its type.
fn push_variable(
    alloc: Global,
    variables: &mut Vec<Variable>,
    value_type: &ValueType,
) -> Result<(), AllocError>
    requires fits { TypeFits (trees.type_of value_type.now) }
    requires variable { let t = trees.type_of value_type.now in
        IsVariable (record { kind = rules.kind_of t; set = models.type_set t }) }
    ensures { let t = trees.type_of value_type.now in
        OnOk result (variables.new.items ≡ variables.old.items
        ++ record { kind = rules.kind_of t; set = models.type_set t } ∷ []) }
{
    let variable = variable_of(alloc, value_type)?;
    variables.push(variable)?;
    Ok(())
}
