//! Programs whose rules come in the order that is meant: each is the clause of a function that does nothing, so that the clause is
//! proved.
ghost use Rattle.fz_language.specs.Examples.{ArityBeforeNames, NamesBeforeTypes, TypesOfElements, UnequalLists, FloatsBeforeConstraints, UnsupportedConstraint, LengthsBeforeTwice, TypesBeforeLengths, LengthsBeforeLimits, MillionthAndOne, LongTextIsRefused, UnknownByteIsRefused, EndIsOnLineTwo, LinearIsRead, BoundIsRead};

/// A wrong number of arguments comes before an unknown name among them.
pub fn arity_before_names()
    ensures { ArityBeforeNames }
{}

/// An unknown name comes before an argument of a wrong type, also where it stands after it.
pub fn names_before_types()
    ensures { NamesBeforeTypes }
{}

/// An element of a wrong type has the fault at its own place.
pub fn types_of_elements()
    ensures { TypesOfElements }
{}

/// Lists that differ in length have the fault at the constraint's name.
pub fn unequal_lists()
    ensures { UnequalLists }
{}

/// A float comes before the name of a constraint that isn't known.
pub fn floats_before_constraints()
    ensures { FloatsBeforeConstraints }
{}

/// Constraints over sets that vary and half reified ones are not supported.
pub fn unsupported_constraint()
    ensures { UnsupportedConstraint }
{}

/// A wrong index set comes before a name that is declared twice.
pub fn lengths_before_twice()
    ensures { LengthsBeforeTwice }
{}

/// An argument of a wrong type comes before lists that differ in length.
pub fn types_before_lengths()
    ensures { TypesBeforeLengths }
{}

/// Lists that differ in length come before a limit.
pub fn lengths_before_limits()
    ensures { LengthsBeforeLimits }
{}

/// A variable after a million of them is over the limit, at its name.
pub fn millionth_and_one()
    ensures { MillionthAndOne }
{}

/// A text that is too long is refused at its first byte over the limit.
pub fn long_text_is_refused()
    ensures { LongTextIsRefused }
{}

/// `var 1..2: x; #` is refused in line 1 at column 14, with E01.
pub fn unknown_byte_is_refused()
    ensures { UnknownByteIsRefused }
{}

/// The end of a line and its line feed is on the next line.
pub fn end_is_on_line_two()
    ensures { EndIsOnLineTwo }
{}

/// A program with a linear constraint is accepted, with its model.
pub fn linear_is_read()
    ensures { LinearIsRead }
{}

/// The constraints that a value and the set of an array's elements add, in order, and an array that is printed.
pub fn bound_is_read()
    ensures { BoundIsRead }
{}
