//! The limits of a program.
ghost use Rattle.std.specs.Prelude.{◌≡◌, ◌∷◌, [], Some, true, ◌&&◌, map, flat_map, option_map};
ghost use Rattle.fz_language.specs.Rules as rules;
ghost use Rattle.fz_language.specs.Rules.{Counts, none_yet, AVariable, AConstraint, AnElement};
ghost use Rattle.fz_language.specs.Trees as lang;
ghost use Rattle.fz_language.specs.Trees.{number_at, basic_at};
ghost use Rattle.fz_syntax.specs.Trees as trees;
ghost use Rattle.fz_syntax.specs.Rooms.{IsRoom, IsBehind};

use crate::types::is_bound;
use crate::{
    ArrayItem, Basic, ConstraintItem, Elements, Expression, Integer, Item, Name, Number,
    ParameterItem, Plain, SetLiteral, ValueType, VariableItem,
};
use fz_spec::limits::{CONSTRAINT_LIMIT, ELEMENT_LIMIT, VARIABLE_LIMIT};

/// How many more variables, constraints and elements there may be.
#[derive(Clone, Copy, Debug)]
pub struct Room {
    variables: usize,
    constraints: usize,
    elements: usize,
}

impl Room {
    /// That of an empty program.
    pub fn whole() -> Room
        ensures { IsRoom result none_yet }
    {
        Room {
            variables: VARIABLE_LIMIT,
            constraints: CONSTRAINT_LIMIT,
            elements: ELEMENT_LIMIT,
        }
    }

    /// The room after an item, or the place of the first that it adds over a limit. Additions come in the order of the text.
    pub fn behind(self, item: &Item<'_>) -> Result<Room, u32>
        ensures { (n : Counts) → IsRoom self n → IsBehind n
            (rules.additions (trees.item_of item.now)) result }
    {
        match item {
            Item::Predicate(_) => Ok(self),
            Item::Variable(item) => self.behind_variable_item(item),
            Item::Parameter(item) => self.behind_parameter_item(item),
            Item::Array(item) => self.behind_array_item(item),
            Item::Constraint(item) => self.behind_constraint_item(item),
        }
    }

    /// A variable adds what its type does, itself, and what its value does.
    fn behind_variable_item(self, item: &VariableItem<'_>) -> Result<Room, u32>
        ensures { (n : Counts) → IsRoom self n → IsBehind n
            (rules.additions (lang.Variable (trees.variable_item_of item.now))) result }
    {
        match self.behind_type(&item.value_type) {
            Ok(room) => room.behind_name_and_value(item.name, &item.value),
            Err(at) => Err(at),
        }
    }

    /// A name adds a variable, at its place; then comes its value.
    fn behind_name_and_value(self, name: Name<'_>, value: &Option<Basic<'_>>) -> Result<Room, u32>
        ensures { (n : Counts) → IsRoom self n → IsBehind n
            (AVariable name.entry.at
            ∷ rules.value_additions (option_map trees.basic_of value.now)) result }
    {
        match self.behind_variable(name.at) {
            Ok(room) => room.behind_optional(value),
            Err(at) => Err(at),
        }
    }

    /// A value that is not written adds nothing.
    fn behind_optional(self, value: &Option<Basic<'_>>) -> Result<Room, u32>
        ensures { (n : Counts) → IsRoom self n → IsBehind n
            (rules.value_additions (option_map trees.basic_of value.now)) result }
    {
        match value {
            Some(basic) => self.behind_value_and_members(basic),
            None => Ok(self),
        }
    }

    /// A value adds a constraint, and the members of its set.
    fn behind_value_and_members(self, basic: &Basic<'_>) -> Result<Room, u32>
        ensures { (n : Counts) → IsRoom self n → IsBehind n
            (rules.value_additions (Some (trees.basic_of basic.now))) result }
    {
        match self.behind_value(basic) {
            Ok(room) => room.behind_members(basic),
            Err(at) => Err(at),
        }
    }

    /// A parameter adds what its type does, and the members of its set.
    fn behind_parameter_item(self, item: &ParameterItem<'_>) -> Result<Room, u32>
        ensures { (n : Counts) → IsRoom self n → IsBehind n
            (rules.additions (lang.Parameter (trees.parameter_item_of item.now))) result }
    {
        match self.behind_type(&item.value_type) {
            Ok(room) => room.behind_members(&item.value),
            Err(at) => Err(at),
        }
    }

    /// An array adds what its type does, and its elements.
    fn behind_array_item(self, item: &ArrayItem<'_>) -> Result<Room, u32>
        ensures { (n : Counts) → IsRoom self n → IsBehind n
            (rules.additions (lang.Array (trees.array_item_of item.now))) result }
    {
        let is_bound = binds_elements(item);
        match self.behind_type(&item.value_type) {
            Ok(room) => room.behind_array(is_bound, &item.list.elements),
            Err(at) => Err(at),
        }
    }

    /// A constraint adds itself, and the elements of its arguments.
    fn behind_constraint_item(self, item: &ConstraintItem<'_>) -> Result<Room, u32>
        ensures { (n : Counts) → IsRoom self n → IsBehind n
            (rules.additions (lang.Constraint (trees.constraint_item_of item.now))) result }
    {
        match self.behind_constraint(item.name.at) {
            Ok(room) => room.behind_arguments(&item.arguments),
            Err(at) => Err(at),
        }
    }

    /// One variable, at this place.
    fn behind_variable(self, at: u32) -> Result<Room, u32>
        ensures { (n : Counts) → IsRoom self n → IsBehind n (AVariable at ∷ []) result }
    {
        if self.variables == 0 {
            return Err(at);
        }
        Ok(Room {
            variables: self.variables - 1,
            ..self
        })
    }

    /// One constraint, at this place.
    fn behind_constraint(self, at: u32) -> Result<Room, u32>
        ensures { (n : Counts) → IsRoom self n → IsBehind n (AConstraint at ∷ []) result }
    {
        if self.constraints == 0 {
            return Err(at);
        }
        Ok(Room {
            constraints: self.constraints - 1,
            ..self
        })
    }

    /// One element, at this place.
    fn behind_number(self, at: u32) -> Result<Room, u32>
        ensures { (n : Counts) → IsRoom self n → IsBehind n (AnElement at ∷ []) result }
    {
        if self.elements == 0 {
            return Err(at);
        }
        Ok(Room {
            elements: self.elements - 1,
            ..self
        })
    }

    /// The members that a set lists; a range lists none.
    fn behind_set(self, set: &SetLiteral) -> Result<Room, u32>
        ensures { (n : Counts) → IsRoom self n → IsBehind n
            (rules.members_of (trees.set_of set.now)) result }
    {
        match set {
            SetLiteral::Range { .. } => Ok(self),
            SetLiteral::Braces { members, .. } => self.behind_numbers(members),
        }
    }

    /// The members that an expression lists, where it is a set.
    fn behind_members(self, basic: &Basic<'_>) -> Result<Room, u32>
        ensures { (n : Counts) → IsRoom self n → IsBehind n
            (rules.members_in (trees.basic_of basic.now)) result }
    {
        match basic {
            Basic::Small { member, .. } => self.behind_numbers(member.as_slice()),
            Basic::Literal(set) => self.behind_set(set),
            _ => Ok(self),
        }
    }

    /// An element of an array: itself, and the members that it lists.
    fn behind_element(self, basic: &Basic<'_>) -> Result<Room, u32>
        ensures { (n : Counts) → IsRoom self n → IsBehind n
            (rules.element_additions (trees.basic_of basic.now)) result }
    {
        match self.behind_place(basic) {
            Ok(room) => room.behind_members(basic),
            Err(at) => Err(at),
        }
    }

    /// The elements of an argument that is a list, or the members of one that is a set.
    fn behind_argument(self, argument: &Expression<'_>) -> Result<Room, u32>
        ensures { (n : Counts) → IsRoom self n → IsBehind n
            (rules.expression_additions (trees.expression_of argument.now)) result }
    {
        match argument {
            Expression::Scalar(basic) => self.behind_members(basic),
            Expression::Integers { integers, .. } => self.behind_integers(integers),
            Expression::Basics { basics, .. } => self.behind_basics(basics),
        }
    }

    /// The members of the set that a type writes.
    fn behind_type(self, value_type: &ValueType) -> Result<Room, u32>
        ensures { (n : Counts) → IsRoom self n → IsBehind n
            (rules.type_additions (trees.type_of value_type.now)) result }
    {
        match value_type {
            ValueType::One(Plain::Within(set)) => self.behind_set(set),
            ValueType::SetOf {
                plain: Plain::Within(set),
                ..
            } => self.behind_set(set),
            _ => Ok(self),
        }
    }

    /// An element for each number.
    fn behind_numbers(self, members: &[Number]) -> Result<Room, u32>
        ensures { (n : Counts) → IsRoom self n → IsBehind n
            (flat_map (λ m. AnElement (number_at m) ∷ [])
            (map trees.number_of members.now)) result }
    {
        let mut room = self;
        for member in members {
            match room.behind_member(*member) {
                Ok(next) => room = next,
                Err(at) => return Err(at),
            }
        }
        Ok(room)
    }

    /// The elements of a list.
    fn behind_elements(self, elements: &Elements<'_>) -> Result<Room, u32>
        ensures { (n : Counts) → IsRoom self n → IsBehind n
            (flat_map rules.element_additions (trees.elements_of elements.now)) result }
    {
        match elements {
            Elements::Integers(integers) => self.behind_integers(integers),
            Elements::Basics(basics) => self.behind_basics(basics),
        }
    }

    /// The first over the limit is the one after as many as there is room for.
    fn behind_integers(self, integers: &[Integer]) -> Result<Room, u32>
        ensures { (n : Counts) → IsRoom self n → IsBehind n
            (flat_map rules.element_additions (map trees.integer_basic_of integers.now)) result }
    {
        match integers.get(self.elements) {
            Some(first_over) => Err(first_over.at),
            None => Ok(Room {
                elements: self.elements - integers.len(),
                ..self
            }),
        }
    }

    /// The elements of a list of expressions.
    fn behind_basics(self, basics: &[Basic<'_>]) -> Result<Room, u32>
        ensures { (n : Counts) → IsRoom self n → IsBehind n
            (flat_map rules.element_additions (map trees.basic_of basics.now)) result }
    {
        let mut room = self;
        for basic in basics {
            match room.behind_element(basic) {
                Ok(next) => room = next,
                Err(at) => return Err(at),
            }
        }
        Ok(room)
    }

    /// The elements of all arguments.
    fn behind_arguments(self, arguments: &[Expression<'_>]) -> Result<Room, u32>
        ensures { (n : Counts) → IsRoom self n → IsBehind n
            (flat_map rules.expression_additions (map trees.expression_of arguments.now)) result }
    {
        let mut room = self;
        for argument in arguments {
            match room.behind_argument(argument) {
                Ok(next) => room = next,
                Err(at) => return Err(at),
            }
        }
        Ok(room)
    }

    /// The elements of an array; where its type binds them, a constraint for each.
    fn behind_array(self, is_bound: bool, elements: &Elements<'_>) -> Result<Room, u32>
        ensures { (n : Counts) → IsRoom self n → IsBehind n
            (flat_map (rules.array_element_additions is_bound)
            (trees.elements_of elements.now)) result }
    {
        if is_bound {
            self.behind_bound_elements(elements)
        } else {
            self.behind_elements(elements)
        }
    }

    /// After elements that each add a constraint too.
    fn behind_bound_elements(self, elements: &Elements<'_>) -> Result<Room, u32>
        ensures { (n : Counts) → IsRoom self n → IsBehind n
            (flat_map (rules.array_element_additions true)
            (trees.elements_of elements.now)) result }
    {
        match elements {
            Elements::Integers(integers) => self.behind_bound_integers(integers),
            Elements::Basics(basics) => self.behind_bound_basics(basics),
        }
    }

    /// An element and a constraint for each integer.
    fn behind_bound_integers(self, integers: &[Integer]) -> Result<Room, u32>
        ensures { (n : Counts) → IsRoom self n → IsBehind n
            (flat_map (rules.array_element_additions true)
            (map trees.integer_basic_of integers.now)) result }
    {
        let mut room = self;
        for integer in integers {
            match room.behind_bound_integer(*integer) {
                Ok(next) => room = next,
                Err(at) => return Err(at),
            }
        }
        Ok(room)
    }

    /// An element and a constraint, at the place of an integer.
    fn behind_bound_integer(self, integer: Integer) -> Result<Room, u32>
        ensures { (n : Counts) → IsRoom self n → IsBehind n
            (rules.array_element_additions true (trees.integer_basic_of integer)) result }
    {
        match self.behind_constraint(integer.at) {
            Ok(room) => room.behind_number(integer.at),
            Err(at) => Err(at),
        }
    }

    /// An element and a constraint for each expression.
    fn behind_bound_basics(self, basics: &[Basic<'_>]) -> Result<Room, u32>
        ensures { (n : Counts) → IsRoom self n → IsBehind n
            (flat_map (rules.array_element_additions true)
            (map trees.basic_of basics.now)) result }
    {
        let mut room = self;
        for basic in basics {
            match room.behind_bound_element(basic) {
                Ok(next) => room = next,
                Err(at) => return Err(at),
            }
        }
        Ok(room)
    }

    /// An element and a constraint, at the place of an expression.
    fn behind_bound_element(self, element: &Basic<'_>) -> Result<Room, u32>
        ensures { (n : Counts) → IsRoom self n → IsBehind n
            (rules.array_element_additions true (trees.basic_of element.now)) result }
    {
        match self.behind_value(element) {
            Ok(room) => room.behind_element(element),
            Err(at) => Err(at),
        }
    }

    /// After the constraint that a value or an element adds.
    fn behind_value(self, basic: &Basic<'_>) -> Result<Room, u32>
        ensures { (n : Counts) → IsRoom self n → IsBehind n
            (AConstraint (basic_at (trees.basic_of basic.now)) ∷ []) result }
    {
        self.behind_constraint(basic.at())
    }

    /// An element, at the place of a member.
    fn behind_member(self, member: Number) -> Result<Room, u32>
        ensures { (n : Counts) → IsRoom self n → IsBehind n
            (AnElement (number_at (trees.number_of member)) ∷ []) result }
    {
        self.behind_number(member.at())
    }

    /// An element, at the place of an expression.
    fn behind_place(self, basic: &Basic<'_>) -> Result<Room, u32>
        ensures { (n : Counts) → IsRoom self n → IsBehind n
            (AnElement (basic_at (trees.basic_of basic.now)) ∷ []) result }
    {
        self.behind_number(basic.at())
    }
}

/// Whether the type of an array binds its elements: it has variables, and their set is written.
fn binds_elements(item: &ArrayItem<'_>) -> bool
    ensures { result ≡ (item.now.variable && rules.is_bound (trees.type_of item.now.value_type)) }
{
    if item.variable {
        is_bound(&item.value_type)
    } else {
        false
    }
}
