//! The terms of a trace: texts and numbers, as the trace and the pool have them.

ghost use Rattle.std.specs.Prelude.{◌≡◌, ◌<◌, ℕ, List, IfOk, IfSome, IfNone, map, length, All};
ghost use Rattle.rule_core.specs.Match.{value, image};
ghost use Rattle.rule_core.specs.Validity.{IsWithin};
ghost use Rattle.failure_trace.specs.Equating.{bound_to};
ghost use Rattle.failure_trace.specs.Trace.{term_of, terms_in};
ghost use Rattle.failure_trace.specs.Projected.{pool_text};
ghost use Rattle.trace_checker.specs.Names.{term_named, HasConstant};

use failure_trace::{Bound, Value};
use rule_core::{Arg, Atom};
use std::alloc::Global;
use term_core::{Memory, Pool};

/// A constant by its text, or an unknown by its number.
#[derive(Clone, Copy, PartialEq, Eq, Hash)]
pub enum Name<'a> {
    Text(&'a str),
    Number(u64),
}

impl<'a> Name<'a> {
    /// The term of a value.
    pub fn of(value: &'a Value) -> Name<'a>
        ensures { term_named result ≡ term_of value.now }
    {
        match value {
            Value::Const(text) => Name::Text(text.as_str()),
            Value::Null(number) => Name::Number(*number),
        }
    }
}

/// What an argument stands for under a binding.
pub fn name_of<'a>(pool: &'a Pool, binding: &'a [Bound], arg: &Arg) -> Name<'a>
    requires within { IsWithin (length binding.now) arg.now }
    requires there { HasConstant pool.now arg.now }
    ensures { term_named result ≡ value (pool_text pool.now) (bound_to (terms_in binding.now)) arg.now }
{
    match arg {
        Arg::Var(variable) => Name::of(&binding[*variable as usize].value),
        Arg::Const(id) => Name::Text(pool.text(*id)),
    }
}

/// The terms of the fact that an atom becomes under a binding.
pub fn image_names<'a>(
    alloc: Global,
    pool: &'a Pool,
    binding: &'a [Bound],
    atom: &Atom,
) -> Result<Vec<Name<'a>>, Memory>
    requires within { All (IsWithin (length binding.now)) atom.now.args }
    requires there { All (HasConstant pool.now) atom.now.args }
    ensures { IfOk result (λ names. map term_named names.items
        ≡ (image (pool_text pool.now) (bound_to (terms_in binding.now)) atom.now).terms) }
{
    let args = atom.args.as_slice();
    let mut names = Vec::with_capacity(alloc, args.len())?;
    for arg in args {
        names.push(name_of(pool, binding, arg))?;
    }
    Ok(names)
}
