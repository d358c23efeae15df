//! What helps where another language would write it so.

use crate::habits::Habit;
use kpn_text_tokens::Language;

/// What helps with a way of writing in a language.
pub(crate) fn remedy(habit: Habit, language: Language) -> &'static [u8] {
    match language {
        Language::One => usual(habit),
        Language::Two => without_parentheses(habit),
    }
}

// Where language 2 needs no parentheses, or has what language 1 lacks.
fn without_parentheses(habit: Habit) -> &'static [u8] {
    match habit {
        Habit::Slashes =>
            b"A comment begins with `#` and ends with its line. A quotient is written `x / 2`.",
        Habit::For =>
            b"Write `for k in 0..9 { }`, or count in a variable: `while k < 9 { k += 1; }`.",
        Habit::ElseIf => b"Write `else if`: `if x { } else if y { }`.",
        Habit::Changes => b"A variable changes by an assignment of its own: `x += 1;`.",
        Habit::NoCapacity =>
            b"Write a capacity after the name, or `cap 1;` for all at the head of the network.",
        Habit::Compares => b"`=` assigns. Compare by `==`: `x == 1`.",
        Habit::And => b"Write `&&` for and: `x && y`.",
        Habit::Or => b"Write `||` for or: `x || y`.",
        Habit::Fraction => b"Numbers are whole: scale them first, or divide, as in `x / 2`.",
        Habit::Stars => b"There is no `**`: a power is a product, as in `x * x`.",
        Habit::Calls =>
            b"The only functions are `min(x, y)` and `max(x, y)`: `max(x, -x)` is abs(x).",
        Habit::Constant =>
            b"Declare it after `;`, `{` or `}`, from numbers and constants: `const n = 5;`.",
        other => usual(other),
    }
}

// Remedies that fill a line, each named for its habit.
const SIDES: &[u8] =
    b"Parenthesize each operator with two sides: `((x + y) + 1)`, or begin the text with `language 2;`.";

const MIXED: &[u8] =
    b"Put parentheses around one of the two operators: `(x & 1) == 0`. Languages differ on which comes first.";

const CHAIN: &[u8] =
    b"Join two comparisons by `&&`: `x < y && y < z`. To compare what one gives, put parentheses around it.";

const PARENTHESES: &[u8] =
    b"Leave these parentheses out: they stand only around an operator with two sides, as in `(x + 1)`.";

const SHIFT_RIGHT: &[u8] =
    b"There is no shift: divide by a power of two, as in `(x / 4)`, or begin the text with `language 2;`.";

const SHIFT_LEFT: &[u8] =
    b"There is no shift: multiply by a power of two, as in `(x * 4)`, or begin the text with `language 2;`.";

const SLASHES: &[u8] =
    b"A comment begins with `#` and ends with its line. A quotient is written `(x / 2)`.";

const ELSE_IF: &[u8] =
    b"Open a block after `else`: `else { if x { } else { } }`, or begin the text with `language 2;`.";

const NO_ELSE: &[u8] =
    b"Each `if` has an `else`, whose block may be empty: `else { }`, or begin the text with `language 2;`.";

const BITS: &[u8] =
    b"There are no operators on bits: `&&` is and, `||` is or, or begin the text with `language 2;`.";

const COMPLEMENT: &[u8] =
    b"There is no `~`: write `(-x - 1)` in place of `~x`, or begin the text with `language 2;`.";

const QUESTION: &[u8] =
    b"There is no `?`: use `if` and `else`, or begin the text with `language 2;`.";

const OPENING: &[u8] =
    b"There are languages 1 and 2: a text of language 2 begins with `language 2;`, the other without.";

const DECLARES: &[u8] = b"The first assignment makes a variable: `x = 0;`, with no word before it.";

const PLACE: &[u8] =
    b"There are no arrays: give each place a variable, as in `a0 = x;`, or begin the text with `language 2;`.";

const NO_TABLES: &[u8] =
    b"There are no tables: choose a value by `if` and `else`, or begin the text with `language 2;`.";

const INDEX: &[u8] =
    b"One index stands right after the name of an array: `x[i * 9 + k]` in place of `x[i][k]`.";

const LATE_ROW: &[u8] =
    b"Move it to the front of the process: arrays and tables stand before all statements.";

const OUTSIDE_PROCESSES: &[u8] =
    b"Move it to the front of a process: an array belongs to one, and only tables are shared.";

const VALUES: &[u8] =
    b"The cells of an array begin at 0: values stand in a table, as in `table x = 1, 2, 3;`.";

const DECLARATION: &[u8] =
    b"Write `array x[9];` for an array of 9 cells, and `table x = 1, 2, 3;` for a table.";

const CALLS: &[u8] =
    b"There are no functions: write out what one computes, as in `if (x < 0) { x = -x; } else { }`.";

const NO_OUTS: &[u8] =
    b"A `;` stands after the in channels of an instance, even if there are no out channels: `e = eat(c;);`.";

const CONSTANT: &[u8] =
    b"Write the number, give it to a process as a parameter, or begin the text with `language 2;`.";

fn usual(habit: Habit) -> &'static [u8] {
    match habit {
        Habit::Sides => SIDES,
        Habit::Mixed => MIXED,
        Habit::Chain => CHAIN,
        Habit::Parentheses => PARENTHESES,
        Habit::ShiftRight => SHIFT_RIGHT,
        Habit::ShiftLeft => SHIFT_LEFT,
        Habit::Comment => b"A comment begins with `#` and ends with its line.",
        Habit::Slashes => SLASHES,
        Habit::For => b"There is no `for`: use `while`, and count in a variable.",
        Habit::Break => b"There is no `break`: let the condition of the loop end it.",
        Habit::ElseIf => ELSE_IF,
        Habit::NoElse => NO_ELSE,
        Habit::Changes => b"A variable changes only by an assignment of its own: `x = (x + 1);`.",
        Habit::Compares => b"`=` assigns. Compare by `==`, between parentheses: `(x == 1)`.",
        Habit::Assigns => b"`==` compares. Assign by `=`: `x = 1;`.",
        Habit::Becomes => b"Write `=` in place of `:=`.",
        Habit::And => b"Write `&&` for and, between parentheses: `(x && y)`.",
        Habit::Or => b"Write `||` for or, between parentheses: `(x || y)`.",
        Habit::Not => b"Write `!` for not: `!x`.",
        Habit::Differs => b"Write `!=` in place of `<>`.",
        Habit::Bits => BITS,
        Habit::Complement => COMPLEMENT,
        Habit::Question => QUESTION,
        Habit::Choice => b"Put parentheses around a choice: `(x ? 1 : 0)`.",
        Habit::Opening => OPENING,
        Habit::Truth => b"Write 1 for true and 0 for false.",
        Habit::Declares => DECLARES,
        Habit::Reads => b"An item comes by a statement of its own: `read PORT VARIABLE;`.",
        Habit::Ports => b"Write `in`, `out` and `par` once each, as in `in a, b; out c, d; par k`.",
        Habit::NoCapacity => b"Write a capacity after the name, as in `channel a cap 1;`.",
        Habit::Fraction => b"Numbers are whole: scale them first, or divide, as in `(x / 2)`.",
        Habit::Letter => b"Write the number of a letter, as 65 for `A`.",
        Habit::Calls => CALLS,
        Habit::Constant => CONSTANT,
        Habit::NoOuts => NO_OUTS,
        Habit::Power => b"There is no `^`: a power is a product, as in `((x * x) * x)`.",
        Habit::Stars => b"There is no `**`: a power is a product, as in `(x * x)`.",
        Habit::Place => PLACE,
        Habit::Table => NO_TABLES,
        Habit::Index => INDEX,
        Habit::LateRow => LATE_ROW,
        Habit::LateTable =>
            b"Move it to the front of the text: tables that are shared stand before all processes.",
        Habit::Outside => OUTSIDE_PROCESSES,
        Habit::Computed =>
            b"Declare a constant for it, as in `const N = 2 * 8;`, and write its name here.",
        Habit::Size => b"Write a number of at least 1 as the size, as in `array x[9];`.",
        Habit::Values => VALUES,
        Habit::Declaration => DECLARATION,
    }
}
