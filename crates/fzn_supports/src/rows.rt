//! The constraints, by the numbers of their variables x, y and z and by what is to be left of these.
use crate::numbers::Numbers;

/// What is to be left at rest.
#[derive(Clone, Copy, PartialEq, Eq)]
pub enum Rest {
    /// The numbers of solutions, and no others: where the line of the constraint says so of any domains.
    Exact,
    /// The numbers of solutions, and maybe others; where all were declared with numbers that follow each other, the ends of what is
    /// left are of solutions.
    Ends,
    /// The numbers of solutions, and maybe others.
    Sound,
}

/// Constraints over variables of the same numbers.
#[derive(Clone, Copy)]
pub struct Group {
    pub numbers: [Numbers; 3],
    pub rest: Rest,
    pub constraints: &'static [&'static str],
}

const SIGNED: Numbers = Numbers::Signed;

const COUNTING: Numbers = Numbers::Counting;

const SEVEN: Numbers = Numbers::Seven;

const BOOLEAN: Numbers = Numbers::Boolean;

const ZERO: Numbers = Numbers::Zero;

const FAR: Numbers = Numbers::Far;

static GROUPS: [Group; 34] = [
    Group {
        numbers: [SIGNED, SIGNED, ZERO],
        rest: Rest::Exact,
        constraints: &[
            "int_eq(x, y)",
            "int_ne(x, y)",
            "int_le(x, y)",
            "int_lt(x, y)",
            "int_lin_eq([1, -1], [x, y], 1)",
            "int_lin_eq([-1, 1], [x, y], 1)",
        ],
    },
    Group {
        numbers: [SIGNED, ZERO, BOOLEAN],
        rest: Rest::Exact,
        constraints: &[
            "bool2int(z, x)",
            "set_in(x, {-2, 0})",
            "set_in_reif(x, {-2, 0}, z)",
            "set_in_reif(x, -1..0, z)",
        ],
    },
    Group {
        numbers: [SIGNED, SIGNED, BOOLEAN],
        rest: Rest::Exact,
        constraints: &[
            "int_le_reif(x, y, z)",
            "int_lt_reif(x, y, z)",
            "int_lin_le_reif([2, -1], [x, y], 0, z)",
            "int_lin_le_reif([-1, -2], [x, y], 1, z)",
            "int_lin_le_reif([2147483646, -2147483646], [x, y], 0, z)",
            "int_lin_le_reif([1, 2, 3, -1, 1], [1, x, -1, y, 0], 0, z)",
        ],
    },
    Group {
        numbers: [SIGNED, SIGNED, BOOLEAN],
        rest: Rest::Sound,
        constraints: &[
            "int_eq_reif(x, y, z)",
            "int_ne_reif(x, y, z)",
            "int_lin_eq_reif([2, -1], [x, y], 0, z)",
            "int_lin_ne_reif([2, -1], [x, y], 0, z)",
            "int_lin_eq_reif([2147483646, -2147483646], [x, y], 0, z)",
            "int_lin_eq_reif([1, 1], [x, x], -1, z)",
            "int_lin_eq_reif([1, -1], [x, x], 0, z)",
            "int_lin_eq_reif([0, 0], [x, y], 0, z)",
            "int_lin_ne_reif([], [], 0, z)",
            "int_lin_le_reif([], [], -1, z)",
            "int_lin_eq_reif([2, 1, -1, 3, 1], [x, -2, y, 1, -1], 0, z)",
            "int_lin_ne_reif([1, -1, 2, 1, 1], [y, 1, x, y, x], -1, z)",
            "int_lin_le_reif([1, 1, -2, -1, 1], [x, y, 1, x, y], -3, z)",
        ],
    },
    Group {
        numbers: [BOOLEAN, BOOLEAN, ZERO],
        rest: Rest::Exact,
        constraints: &[
            "bool_eq(x, y)",
            "bool_le(x, y)",
            "bool_lt(x, y)",
            "bool_not(x, y)",
            "bool_xor(x, y)",
        ],
    },
    Group {
        numbers: [BOOLEAN, BOOLEAN, BOOLEAN],
        rest: Rest::Exact,
        constraints: &[
            "bool_eq_reif(x, y, z)",
            "bool_le_reif(x, y, z)",
            "bool_lt_reif(x, y, z)",
            "bool_and(x, y, z)",
            "bool_or(x, y, z)",
            "bool_xor(x, y, z)",
            "array_bool_and([x, y], z)",
            "array_bool_and([x, y, z], false)",
            "array_bool_and([true, x, true, true, true, y, true, true, true], z)",
            "array_bool_and([x, true, true, true, y, true, true, true, z], false)",
            "array_bool_or([x, y], z)",
            "array_bool_or([x, y, z], true)",
            "array_bool_or([false, x, false, false, y, false, false, false, false], z)",
            "array_bool_or([x, false, false, false, y, false, false, false, z], true)",
            "array_bool_xor([x, y, z])",
            "array_bool_xor([x, true, y, z])",
            "array_bool_xor([true, x, y, false, z, true])",
            "bool_clause([x, y], [z])",
            "bool_clause([], [x, y, z])",
            "bool_clause([false, x, false, false], [true, y, true, true, z])",
            "bool_clause_reif([x, y], [], z)",
            "bool_clause_reif([x], [y], z)",
            "bool_clause_reif([false, x, false, false], [true, true, y, true, true], z)",
            "bool_lin_le([2, -3, 1], [x, y, z], 0)",
            "bool_lin_le([2, 1, -3, 1, -1], [x, true, y, z, false], 1)",
            "fzn_table_bool([x, y, z], [false, true, true, true, true, false, true, false, true])",
        ],
    },
    Group {
        numbers: [BOOLEAN, BOOLEAN, BOOLEAN],
        rest: Rest::Sound,
        constraints: &[
            "bool_lin_eq([1, 2, 3], [x, y, z], 3)",
            "bool_lin_eq([1, 2, 3, 1, -2], [x, y, true, z, x], 4)",
            "bool_clause([x], [x, y])",
            "bool_clause([x, y, x, y, x], [y, z, z, z, z])",
            "bool_clause([x, x, x, x, x], [y, y, z, z, z])",
            "bool_clause_reif([x], [y], x)",
            "bool_eq_reif(x, y, x)",
            "bool_and(x, y, x)",
            "bool_or(x, x, y)",
            "bool_xor(x, y, x)",
            "array_bool_and([x, y, x], y)",
            "array_bool_and([x, y, z, x, y, z, x, y, z], true)",
            "array_bool_or([x, y, z], x)",
            "array_bool_or([x, y, x, y, x, y, x, y, x], z)",
            "array_bool_xor([x, y, x])",
            "array_bool_xor([x, y, x, z, y, x])",
        ],
    },
    Group {
        numbers: [BOOLEAN, BOOLEAN, SIGNED],
        rest: Rest::Sound,
        constraints: &[
            "bool_lin_eq([2, -1], [x, y], z)",
            "bool_lin_eq([2, -1, 1, 1, -3], [x, y, true, x, y], z)",
        ],
    },
    Group {
        numbers: [SIGNED, SIGNED, SIGNED],
        rest: Rest::Exact,
        constraints: &[
            "int_lin_le([1, 2, -1], [x, y, z], 0)",
            "int_lin_le([2, -3, 1], [x, y, z], -1)",
            "int_lin_le([2147483646, -2147483646, 1], [x, y, z], 0)",
            "int_lin_le([1, 2, 1, -1, 3], [x, y, -1, z, 0], -2)",
            "int_lin_ne([1, 2, -1], [x, y, z], 0)",
            "int_lin_ne([2, -3, 1], [x, y, z], 1)",
            "int_lin_ne([2147483646, -2147483646, 1], [x, y, z], 0)",
            "int_lin_ne([1, 2, 1, 3, -1], [1, x, y, -1, z], 0)",
        ],
    },
    Group {
        numbers: [SIGNED, SIGNED, SIGNED],
        rest: Rest::Sound,
        constraints: &[
            "int_lin_eq([1, 1, -1], [x, y, z], 0)",
            "int_lin_eq([2, -3, 1], [x, y, z], 1)",
            "int_lin_eq([2147483646, -2147483646, 1], [x, y, z], -1)",
            "int_lin_eq([1, -1, 2, 3, 1], [x, y, z, -1, x], 1)",
            "int_plus(x, y, z)",
            "int_times(x, y, z)",
            "int_div(x, y, z)",
            "int_mod(x, y, z)",
            "int_min(x, y, z)",
            "int_max(x, y, z)",
            "array_int_minimum(x, [y, z])",
            "array_int_maximum(x, [y, z])",
            "array_int_minimum(x, [1, y, 0, z, 1])",
            "array_int_maximum(x, [y, -2, z, -1, y])",
        ],
    },
    Group {
        numbers: [SIGNED, SIGNED, ZERO],
        rest: Rest::Sound,
        constraints: &[
            "int_abs(x, y)",
            "int_abs(x, x)",
            "int_plus(x, x, y)",
            "int_plus(x, y, x)",
            "int_times(x, x, y)",
            "int_times(x, y, x)",
            "int_div(x, x, y)",
            "int_div(x, y, x)",
            "int_mod(x, x, y)",
            "int_mod(x, y, x)",
            "int_min(x, y, x)",
            "array_int_minimum(x, [])",
            "array_int_maximum(x, [y, -1, x])",
            "array_int_maximum(x, [-2, y, -1, x, -2])",
            "array_int_minimum(y, [x, 2147483646, x, 1, x, 3])",
            "int_lin_eq([1, 2, 1], [x, y, x], 0)",
            "int_lin_ne([1, 1, -1], [x, y, x], 0)",
            "int_lin_ne([1, 1, -1, 2, 1], [x, y, x, 1, y], 0)",
            "int_lin_le([1, 0, -2], [x, y, x], 0)",
            "int_lin_le([1, 0, -2, 1, 1], [x, y, x, y, -1], 0)",
            "int_lt(x, x)",
            "int_lin_ne([0, 0], [x, y], 0)",
            "int_lin_eq_reif([1, 1], [x, y], -3, true)",
            "int_lin_le_reif([1, 1], [x, y], -3, false)",
            "int_plus(x, 1, y)",
            "fzn_cumulative([], [], [], x)",
            "fzn_cumulative([0], [x], [y], 1)",
            "fzn_cumulative([x], [2], [1], y)",
        ],
    },
    Group {
        numbers: [COUNTING, SIGNED, ZERO],
        rest: Rest::Exact,
        constraints: &["array_int_element(x, [1, -2, 1], y)"],
    },
    Group {
        numbers: [COUNTING, BOOLEAN, ZERO],
        rest: Rest::Exact,
        constraints: &["array_bool_element(x, [true, false, true], y)"],
    },
    Group {
        numbers: [COUNTING, SIGNED, SIGNED],
        rest: Rest::Exact,
        constraints: &[
            "array_var_int_element(x, [y, 0, z], -1)",
            "array_var_int_element(x, [y, 0], z)",
        ],
    },
    Group {
        numbers: [COUNTING, BOOLEAN, BOOLEAN],
        rest: Rest::Exact,
        constraints: &["array_var_bool_element(x, [y, false], z)"],
    },
    Group {
        numbers: [COUNTING, BOOLEAN, BOOLEAN],
        rest: Rest::Sound,
        constraints: &["array_var_bool_element(x, [y, z, y], true)"],
    },
    Group {
        numbers: [COUNTING, COUNTING, COUNTING],
        rest: Rest::Exact,
        constraints: &[
            "fzn_table_int([x, y, z], [0, 1, 2, 1, 1, 3, 3, 0, 0, 2, 2, 2, 0, 1, 3])",
            "fzn_regular([x, y, z], 2, 2, [1, 2, 2, 0], 1, {2})",
            "fzn_regular([x, 1, y, z, 2], 3, 3, [2, 3, 1, 1, 0, 3, 2, 2, 1], 1, 2..3)",
            "fzn_inverse([x, y, z], [2, 3, 1])",
            "fzn_global_cardinality([x, y], [1], [z])",
        ],
    },
    Group {
        numbers: [COUNTING, COUNTING, COUNTING],
        rest: Rest::Sound,
        constraints: &[
            "fzn_table_int([x, y, x, z], [0, 1, 2, 1, 1, 3, 1, 0, 0, 2, 0, 2, 3, 1, 3, 1])",
            "array_var_int_element(x, [y, x], z)",
            "fzn_cumulative([x, y, z], [2, 1, 1], [1, 1, 1], 1)",
            "fzn_cumulative([x, y], [2, 3], [1, 2], z)",
            "fzn_regular([x, y, x, z], 3, 3, [2, 3, 1, 1, 0, 3, 2, 2, 1], 3, {1})",
            "fzn_global_cardinality([x, y], [1, 3], [z, 1])",
            "fzn_global_cardinality([x, y, z], [2, 0], [1, 1])",
            "fzn_global_cardinality([x, y, 2, x, 1], [1, 2], [z, 2])",
            "fzn_global_cardinality([x, y, z], [1, 2], [x, 1])",
            "fzn_inverse([x, y], [z, 1])",
            "fzn_inverse([x, 3, y], [z, 1, 2])",
            "fzn_inverse([x, y, z], [x, y, z])",
        ],
    },
    Group {
        numbers: [COUNTING, COUNTING, COUNTING],
        rest: Rest::Ends,
        constraints: &[
            "all_different_int([x, y, z, 2])",
            "fzn_all_different_int([x, y, z])",
            "fzn_all_different_int([x, 7, y, -9, z])",
            "fzn_all_different_int([2147483646, x, y, 2, z, 9])",
        ],
    },
    Group {
        numbers: [COUNTING, COUNTING, SIGNED],
        rest: Rest::Sound,
        constraints: &[
            "fzn_cumulative([x, y], [z, 2], [1, 1], 1)",
            "fzn_cumulative([x, y], [2, 2], [1, z], 1)",
            "fzn_cumulative([x, 1], [y, 2], [1, 1], z)",
        ],
    },
    Group {
        numbers: [COUNTING, COUNTING, ZERO],
        rest: Rest::Exact,
        constraints: &[
            "fzn_table_int([x], [3, 1, 1, 7])",
            "fzn_table_int([x], [])",
            "fzn_table_int([x, 2], [1, 2, 3, 3, 0, 2])",
            "fzn_table_int([2, 2], [1, 2, 2, 2])",
            "fzn_regular([], 2, 1, [2, 1], 1, {2})",
            "fzn_regular([], 1, 1, [1], 1, {1})",
            "fzn_regular([x, y], 1, 3, [1, 0, 1], 1, {1})",
            "array_int_element(2, [5, 3, 1, 0], y)",
            "array_var_int_element(2, [0, x], y)",
        ],
    },
    Group {
        numbers: [COUNTING, COUNTING, ZERO],
        rest: Rest::Sound,
        constraints: &[
            "fzn_table_int([x, x, y], [1, 2, 3, 2, 2, 1, 3, 3, 0])",
            "array_int_element(x, [3, 2, 1], x)",
            "all_different_int([x, x, y])",
            "all_different_int([x, 1, 1])",
            "all_different_int([x, 2, 3])",
            "fzn_all_different_int([x, 2147483646, y])",
            "all_different_int([x, 2, y, 3, 2147483646])",
            "all_different_int([x, y, 4, 5, x])",
            "fzn_global_cardinality([x, x, y], [1, 0, 1], [2, y, 2])",
            "fzn_global_cardinality([], [], [])",
            "fzn_inverse([x, y], [x, y])",
            "fzn_inverse([x, x], [y, y])",
        ],
    },
    Group {
        numbers: [FAR, FAR, ZERO],
        rest: Rest::Exact,
        constraints: &[
            "int_eq(x, y)",
            "int_ne(x, y)",
            "int_le(x, y)",
            "int_lt(x, y)",
            "set_in(x, -1..2147483646)",
            "int_lin_ne([2147483646, 2147483646], [x, y], 0)",
            "int_lin_le([2000000000, 1500000000], [x, y], 2000000000)",
            "int_lin_le([1, 2000000000, -1, 1500000000, 2], [5, x, 7, y, -1], 2000000000)",
            "fzn_table_int([x, y], [-2147483646, 2147483646, 2, 2, 2147483646, -1])",
        ],
    },
    Group {
        numbers: [FAR, FAR, ZERO],
        rest: Rest::Sound,
        constraints: &[
            "int_abs(x, y)",
            "int_times(x, -1, y)",
            "int_max(x, y, 2)",
            "array_int_maximum(x, [y, -2147483646, 2, y, -1])",
            "int_lin_eq([2147483646, 2147483646], [x, y], 0)",
            "all_different_int([x, y, -1])",
            "fzn_all_different_int([x, 7, -2147483646, y, -1])",
            "fzn_cumulative([x, y], [2147483646, 2], [1, 1], 1)",
        ],
    },
    Group {
        numbers: [FAR, FAR, BOOLEAN],
        rest: Rest::Exact,
        constraints: &[
            "int_le_reif(x, y, z)",
            "int_lin_le_reif([2147483646, 2147483646], [x, y], 0, z)",
            "int_lin_le_reif([2147483646, 1, 2147483646, 1, 1], [x, 2, y, -1, -1], 0, z)",
            "set_in_reif(x, {-2147483646, 2, 2147483646}, z)",
        ],
    },
    Group {
        numbers: [FAR, FAR, BOOLEAN],
        rest: Rest::Sound,
        constraints: &[
            "int_eq_reif(x, y, z)",
            "int_lin_eq_reif([2147483646, 2147483646], [x, y], 0, z)",
            "int_lin_ne_reif([2147483646, 1, 2147483646, 1, 1], [x, 2, y, -1, -1], 0, z)",
        ],
    },
    Group {
        numbers: [COUNTING, FAR, ZERO],
        rest: Rest::Exact,
        constraints: &["array_int_element(x, [2147483646, -2147483646, 2], y)"],
    },
    Group {
        numbers: [FAR, FAR, FAR],
        rest: Rest::Exact,
        constraints: &[
            "int_lin_le([2147483646, 2147483646, 2147483646], [x, y, z], 0)",
            "int_lin_ne([2147483646, 2147483646, 2147483646], [x, y, z], -2147483646)",
            "int_lin_ne([2147483646, 2147483646, 1, 2147483646, -1], [x, y, 7, z, 7], -2147483646)",
            "array_var_int_element(x, [2147483646, y], z)",
        ],
    },
    Group {
        numbers: [FAR, FAR, FAR],
        rest: Rest::Sound,
        constraints: &[
            "int_lin_eq([2147483646, 2147483646, 2147483646], [x, y, z], -2147483646)",
            "int_lin_eq([2147483646, 2147483646, 2147483646, 1, 1], [x, y, z, 3, -3], -2147483646)",
            "int_times(x, y, z)",
            "int_div(x, y, z)",
        ],
    },
    Group {
        numbers: [FAR, FAR, SIGNED],
        rest: Rest::Sound,
        constraints: &["int_plus(x, y, z)", "int_mod(x, y, z)"],
    },
    Group {
        numbers: [COUNTING, COUNTING, ZERO],
        rest: Rest::Exact,
        constraints: &[
            "int_lin_eq([2, 3], [x, y], 6) :: domain",
            "int_lin_eq([1, 1, -1], [x, x, y], 0) :: domain",
            "int_lin_eq([2, 3, 1], [x, y, 5], 11) :: domain",
            "int_lin_eq([1, -1], [x, x], 0) :: domain",
            "int_lin_eq([0, 1], [x, y], 2) :: domain",
            "int_lin_eq([0, 2, -1], [x, x, y], 0) :: domain",
        ],
    },
    Group {
        numbers: [SIGNED, SIGNED, SIGNED],
        rest: Rest::Exact,
        constraints: &[
            "int_lin_eq([2, 3, -1], [x, y, z], 1) :: domain",
            "int_lin_eq([1, 1, 1], [x, y, z], 0) :: domain",
            "int_lin_eq([2, 1, -1], [x, y, z], 0) :: domain",
            "int_lin_eq([2, 0, 3], [x, y, z], 1) :: domain",
        ],
    },
    Group {
        numbers: [FAR, FAR, FAR],
        rest: Rest::Exact,
        constraints: &["int_lin_eq([2147483646, -2147483646, 1], [x, y, z], -1) :: domain"],
    },
    Group {
        numbers: [SEVEN, SEVEN, ZERO],
        rest: Rest::Exact,
        constraints: &["int_lin_eq([2, 3], [x, y], 12) :: domain"],
    },
];

pub fn groups() -> &'static [Group] {
    &GROUPS
}
