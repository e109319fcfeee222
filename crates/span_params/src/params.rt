//! Parameters, by their names.
ghost use Rattle.std.specs.Prelude.{◌≡◌, ◌⊎◌, [], false, true, IfOk, OnOk, OnErr, IfErr, IsOkUnless};
ghost use Rattle.std.specs.Option.{option_copied};
ghost use Rattle.span_schema.specs.Fitting.{is_of_kind};
ghost use Rattle.span_params.specs.Parameters as spec;

use span_schema::fitting::is_of_kind;
use span_schema::table::are_same;
use span_value::refusal::Refusal;
use span_value::seq::Seq;
use span_value::text::Text;
use span_value::value::{Kind, Value};
use std::alloc::Global;
use std::marker::Model;

/// A parameter: its name, without the `@` that precedes it in a query, its type and its value.
#[derive(Debug, Drop, PartialEq, Eq)]
pub struct Parameter {
    pub name: Text,
    pub kind: Kind,
    pub value: Value,
}

/// The parameters of a query. No two have one name; ASCII letters of either case are equal.
#[derive(Debug, Drop, PartialEq, Eq)]
pub struct Params {
    parameters: Seq<Parameter>,
}

impl Model for Params {
    ghost use Rattle.std.specs.Prelude.{List};
    ghost use Rattle.span_params.specs.declared.params.Parameter.{Parameter};

    ghost Value = { List Parameter };

    ghost view = { λ a. a.parameters };

    ghost inverse = { λ d. record { parameters = d } };
}

/// The place of the parameter with a name, counted from 0.
fn place_of(parameters: &[Parameter], name: &str) -> Option<usize>
    ensures { result ≡ spec.place_of parameters.now name.now }
{
    parameters
        .iter()
        .position(|p| are_same(p.name.as_str(), name))
}

fn parameter_named<'a>(parameters: &'a [Parameter], name: &str) -> Option<&'a Parameter>
    ensures { option_copied result ≡ spec.parameter_named parameters.now name.now }
{
    parameters.iter().find(|p| are_same(p.name.as_str(), name))
}

impl Parameter {
    /// An equal parameter, or the refusal where memory runs out.
    pub fn copy(&self, alloc: Global) -> Result<Parameter, Refusal>
        ensures ok { IfOk result (λ copy. copy ≡ self.now) }
        ensures memory { IsOkUnless result Refusal.OutOfMemory }
    {
        Ok(Parameter {
            name: Text::from_str(alloc, self.name.as_str())?,
            kind: self.kind,
            value: self.value.copy(alloc)?,
        })
    }
}

impl Params {
    /// No parameters. It takes no memory.
    pub fn new(alloc: Global) -> Params
        ensures { result ≡ [] }
    {
        Params {
            parameters: Seq::new(alloc),
        }
    }

    /// The parameters, each where one with its name was first added.
    pub fn as_slice(&self) -> &[Parameter]
        ensures { result.now ≡ self.now }
    {
        self.parameters.as_slice()
    }

    /// The parameter with a name; none where no parameter has it.
    pub fn find(&self, name: &str) -> Option<&Parameter>
        ensures { option_copied result ≡ spec.parameter_named self.now name.now }
    {
        parameter_named(self.parameters.as_slice(), name)
    }

    /// Adds a parameter, in the place of the one with its name if there is one, else after the others.
    ///
    /// `WrongType`: the value is neither NULL nor of the type. `OutOfMemory`: there is no memory for one more. A refusal leaves
    /// the parameters as they were.
    #[tactic(auto, using(crate::proofs::Adding::adding_steps))]
    pub fn add(&mut self, name: Text, kind: Kind, value: Value) -> Result<(), Refusal>
        ensures added { OnOk result
            (self.new ≡ spec.with_parameter (record { name = name; kind = kind; value = value }) self.old) }
        ensures typed { OnOk result (is_of_kind kind value ≡ true) }
        ensures refused { IfErr result
            (λ why.
            ((why ≡ Refusal.WrongType) × (is_of_kind kind value ≡ false))
            ⊎ ((why ≡ Refusal.OutOfMemory) × (is_of_kind kind value ≡ true))) }
        ensures unchanged { OnErr result (self.new ≡ self.old) }
    {
        if !is_of_kind(kind, &value) {
            return Err(Refusal::WrongType);
        }
        let place = place_of(self.parameters.as_slice(), name.as_str());
        let parameter = Parameter { name, kind, value };
        match place {
            Some(at) => self.parameters.set(at, parameter),
            None => self.parameters.push(parameter)?,
        }
        Ok(())
    }

    /// An equal value, or the refusal where memory runs out.
    pub fn copy(&self, alloc: Global) -> Result<Params, Refusal>
        ensures ok { IfOk result (λ copy. copy ≡ self.now) }
        ensures memory { IsOkUnless result Refusal.OutOfMemory }
    {
        let mut parameters = Seq::new(alloc);
        for parameter in self.parameters.as_slice() {
            parameters.push(parameter.copy(alloc)?)?;
        }
        Ok(Params { parameters })
    }
}
