//! The typed expression of a syntax tree.
//!
//! Operands come before their operator, and the first fault is the refusal. Chains of operators are walked by loops, so that the
//! depth of the recursion is bounded by the nesting of the query.
ghost use Rattle.std.specs.Prelude.{◌≡◌, ◌++◌, ◌∷◌, [], Ok, map};
ghost use Rattle.std.specs.Option.{option_map};
ghost use Rattle.span_value.specs.Results.{and_then};
ghost use Rattle.span_operators.specs.Steps.{Gives, Leaves};
ghost use Rattle.span_operators.specs.Functions as functions;
ghost use Rattle.span_operators.specs.Operators as operators;
ghost use Rattle.span_typing.specs.Typing as spec;

use super::leaf::{aggregate, bytes, call_star, column, null, parameter, string, truth};
use super::operand::{all_true, check_kind, condition_of, some_true};
use super::scope::Scope;
use span_expr::expr::Expr;
use span_operators::call::apply_function;
use span_operators::choice::{case_of, in_list, match_of};
use span_operators::function::{CalledFunction, function_named};
use span_operators::operator::{
    TypingResult, append_link, between, chain_of, comparison_test, integer, like_test, logical_not,
    null_test, unary_minus,
};
use span_operators::step::{pair_with, push_result};
use span_operators::typed::{Mode, Typed, TypedArm, TypedLinks};
use span_params::params::Params;
use span_query::query::Aggregate;
use span_trees::tree;
use span_value::refusal::Refusal;
use span_value::seq::Seq;
use span_value::value::Kind;
use sqlite_items::{Boxed, Items};
use std::alloc::Global;

/// The names of a block and the parameters of its query.
#[derive(Clone, Copy, Debug)]
pub struct Names<'a> {
    pub alloc: Global,
    pub scope: &'a Scope,
    pub params: &'a Params,
}

impl Names<'_> {
    /// The typed expression of a tree. The aggregates in it are added to those of the block found so far.
    ///
    /// The error is the first of these in the tree, where operands come before their operator: `NoColumn`, `Ambiguous`,
    /// `TypeMismatch`, `NotGrouped`, `BadPattern`, `NoParameter`; or out of memory. What is found then does not matter.
    #[cycle(typing)]
    pub fn bind(self, mode: Mode, tree: &tree::Expr, found: &mut Seq<Aggregate>) -> TypingResult
        ensures { Leaves result found.new
            (spec.typing self.entry.scope.now self.entry.params.now tree.now mode found.old) }
    {
        match tree {
            tree::Expr::Integer(literal) => Ok(integer(*literal)),
            tree::Expr::Str(literal) => string(self.alloc, literal.text.as_str()),
            tree::Expr::Bytes(literal) => bytes(self.alloc, literal.text.as_str()),
            tree::Expr::Truth(value, _) => Ok(truth(*value)),
            tree::Expr::Null(_) => Ok(null()),
            tree::Expr::Parameter(name) => parameter(self.alloc, self.params, name.text.as_str()),
            tree::Expr::Column(name) => column(self.scope, mode, name),
            tree::Expr::CallStar(name) => {
                call_star(self.scope, mode, function_named(name.text.as_str()), found)
            }
            tree::Expr::Call(name, operands) => {
                self.call(mode, name.text.as_str(), operands.as_slice(), found)
            }
            tree::Expr::Case(operand, arms, otherwise) => {
                self.case(mode, operand, arms.as_slice(), otherwise, found)
            }
            tree::Expr::Negative(a) => unary_minus(self.alloc, self.bind(mode, a.get(), found)?),
            tree::Expr::Chain(first, links) => {
                self.chain(mode, first.get(), links.as_slice(), found)
            }
            tree::Expr::Compare(a, comparison, b) => {
                self.comparison(mode, a.get(), *comparison, b.get(), found)
            }
            tree::Expr::IsNull(a) => null_test(self.alloc, self.bind(mode, a.get(), found)?),
            tree::Expr::Like(a, pattern) => like_test(
                self.alloc,
                self.bind(mode, a.get(), found)?,
                pattern.text.as_str(),
            ),
            tree::Expr::Between(a, low, high) => {
                self.between(mode, a.get(), low.get(), high.get(), found)
            }
            tree::Expr::In(a, members) => {
                self.membership(mode, a.get(), members.as_slice(), found)
            }
            tree::Expr::Not(a) => logical_not(self.alloc, self.bind(mode, a.get(), found)?),
            tree::Expr::And(first, more) => {
                self.conjunction(mode, first.get(), more.as_slice(), found)
            }
            tree::Expr::Or(first, more) => {
                self.disjunction(mode, first.get(), more.as_slice(), found)
            }
        }
    }

    #[cycle(typing)]
    fn comparison(
        self,
        mode: Mode,
        left: &tree::Expr,
        comparison: tree::ComparisonOperator,
        right: &tree::Expr,
        found: &mut Seq<Aggregate>,
    ) -> TypingResult
        ensures { Leaves result found.new
            (spec.of_two (operators.comparison_test comparison)
            (spec.typing self.entry.scope.now self.entry.params.now left.now)
            (spec.typing self.entry.scope.now self.entry.params.now right.now)
            mode
            found.old) }
    {
        let left = self.bind(mode, left, found)?;
        let (left, right) = pair_with(left, self.bind(mode, right, found))?;
        comparison_test(self.alloc, left, comparison, right)
    }

    #[cycle(typing)]
    fn between(
        self,
        mode: Mode,
        operand: &tree::Expr,
        low: &tree::Expr,
        high: &tree::Expr,
        found: &mut Seq<Aggregate>,
    ) -> TypingResult
        ensures { Leaves result found.new
            (spec.of_three operators.between
            (spec.typing self.entry.scope.now self.entry.params.now operand.now)
            (spec.typing self.entry.scope.now self.entry.params.now low.now)
            (spec.typing self.entry.scope.now self.entry.params.now high.now)
            mode
            found.old) }
    {
        let operand = self.bind(mode, operand, found)?;
        let (operand, low) = pair_with(operand, self.bind(mode, low, found))?;
        let ((operand, low), high) = pair_with((operand, low), self.bind(mode, high, found))?;
        between(self.alloc, operand, low, high)
    }

    /// An IN.
    #[cycle(typing)]
    fn membership(
        self,
        mode: Mode,
        operand: &tree::Expr,
        members: &[tree::Expr],
        found: &mut Seq<Aggregate>,
    ) -> TypingResult
        ensures { Leaves result found.new
            (spec.membership
            (spec.typing self.entry.scope.now self.entry.params.now operand.now)
            (map (spec.typing self.entry.scope.now self.entry.params.now) members.now)
            mode
            found.old) }
    {
        let operand = self.bind(mode, operand, found)?;
        let (operand, members) = pair_with(operand, self.each(mode, members, found))?;
        in_list(self.alloc, operand, members)
    }

    #[cycle(typing)]
    fn chain(
        self,
        mode: Mode,
        first: &tree::Expr,
        links: &[tree::Link],
        found: &mut Seq<Aggregate>,
    ) -> TypingResult
        ensures { Leaves result found.new
            (spec.chain
            (spec.typing self.entry.scope.now self.entry.params.now first.now)
            (map (spec.link_typing self.entry.scope.now self.entry.params.now) links.now)
            mode
            found.old) }
    {
        let first = self.bind(mode, first, found)?;
        let kind = first.kind;
        let (first, chain) = pair_with(first, self.links(mode, kind, links, found))?;
        chain_of(self.alloc, first, chain)
    }

    #[cycle(typing)]
    fn conjunction(
        self,
        mode: Mode,
        first: &tree::Expr,
        more: &[tree::Expr],
        found: &mut Seq<Aggregate>,
    ) -> TypingResult
        ensures { Leaves result found.new
            (spec.junction spec.all_true
            (spec.typing self.entry.scope.now self.entry.params.now first.now)
            (map (spec.typing self.entry.scope.now self.entry.params.now) more.now)
            mode
            found.old) }
    {
        let first = self.bind(mode, first, found)?;
        let kind = first.kind;
        let (first, more) = pair_with(first, self.conditions(mode, kind, more, found))?;
        all_true(self.alloc, first, more)
    }

    #[cycle(typing)]
    fn disjunction(
        self,
        mode: Mode,
        first: &tree::Expr,
        more: &[tree::Expr],
        found: &mut Seq<Aggregate>,
    ) -> TypingResult
        ensures { Leaves result found.new
            (spec.junction spec.some_true
            (spec.typing self.entry.scope.now self.entry.params.now first.now)
            (map (spec.typing self.entry.scope.now self.entry.params.now) more.now)
            mode
            found.old) }
    {
        let first = self.bind(mode, first, found)?;
        let kind = first.kind;
        let (first, more) = pair_with(first, self.conditions(mode, kind, more, found))?;
        some_true(self.alloc, first, more)
    }

    /// Operands, one after another.
    #[cycle(typing)]
    fn each(
        self,
        mode: Mode,
        operands: &[tree::Expr],
        found: &mut Seq<Aggregate>,
    ) -> Result<Seq<Typed>, Refusal>
        ensures { Leaves result found.new
            (spec.each (map (spec.typing self.entry.scope.now self.entry.params.now) operands.now) mode found.old) }
    {
        let mut all = Seq::new(self.alloc);
        for operand in operands {
            let next = self.bind(mode, operand, found);
            all = push_result(all, next)?;
        }
        Ok(all)
    }

    /// The other operands of an AND or an OR. Each is checked as it comes.
    #[cycle(typing)]
    fn conditions(
        self,
        mode: Mode,
        kind: Option<Kind>,
        operands: &[tree::Expr],
        found: &mut Seq<Aggregate>,
    ) -> Result<Seq<Expr>, Refusal>
        ensures { Leaves result found.new
            (spec.conditions kind
            (map (spec.typing self.entry.scope.now self.entry.params.now) operands.now)
            mode
            found.old) }
    {
        let mut all = Seq::new(self.alloc);
        for operand in operands {
            let next = self.condition(mode, kind, operand, found);
            all = push_result(all, next)?;
        }
        Ok(all)
    }

    /// An operand of an AND or an OR after the first, which is of this type.
    #[cycle(typing)]
    fn condition(
        self,
        mode: Mode,
        kind: Option<Kind>,
        operand: &tree::Expr,
        found: &mut Seq<Aggregate>,
    ) -> Result<Expr, Refusal>
        ensures { Leaves result found.new
            (spec.condition kind
            (spec.typing self.entry.scope.now self.entry.params.now operand.now)
            mode
            found.old) }
    {
        condition_of(kind, self.bind(mode, operand, found)?)
    }

    /// A chain after an operand of this type. Each operator is checked as it comes.
    #[cycle(typing)]
    fn links(
        self,
        mode: Mode,
        kind: Option<Kind>,
        links: &[tree::Link],
        found: &mut Seq<Aggregate>,
    ) -> Result<TypedLinks, Refusal>
        ensures { Leaves result found.new
            (spec.links kind
            (map (spec.link_typing self.entry.scope.now self.entry.params.now) links.now)
            mode
            found.old) }
    {
        let mut chain = TypedLinks {
            kind,
            links: Items::new(self.alloc),
        };
        for link in links {
            let operand = self.bind(mode, &link.operand, found);
            let (so_far, operand) = pair_with(chain, operand)?;
            chain = append_link(so_far, link.operator, operand)?;
        }
        Ok(chain)
    }

    /// The arms of a CASE without an operand.
    #[cycle(typing)]
    fn arms(
        self,
        mode: Mode,
        arms: &[tree::Arm],
        found: &mut Seq<Aggregate>,
    ) -> Result<Seq<TypedArm>, Refusal>
        ensures { Leaves result found.new
            (spec.arms (map (spec.arm_typing self.entry.scope.now self.entry.params.now) arms.now) mode found.old) }
    {
        let mut all = Seq::new(self.alloc);
        for arm in arms {
            let next = self.arm(mode, arm, found);
            all = push_result(all, next)?;
        }
        Ok(all)
    }

    /// An arm of a CASE without an operand.
    #[cycle(typing)]
    fn arm(
        self,
        mode: Mode,
        arm: &tree::Arm,
        found: &mut Seq<Aggregate>,
    ) -> Result<TypedArm, Refusal>
        ensures { Leaves result found.new
            (spec.arm (spec.arm_typing self.entry.scope.now self.entry.params.now arm.now) mode found.old) }
    {
        let condition = self.bind(mode, &arm.condition, found)?;
        let (condition, value) = pair_with(condition, self.bind(mode, &arm.value, found))?;
        Ok(TypedArm { condition, value })
    }

    /// The arms of a CASE whose operand is of this type. Each WHEN is compared before its THEN.
    #[cycle(typing)]
    fn compared_arms(
        self,
        mode: Mode,
        kind: Option<Kind>,
        arms: &[tree::Arm],
        found: &mut Seq<Aggregate>,
    ) -> Result<Seq<TypedArm>, Refusal>
        ensures { Leaves result found.new
            (spec.compared_arms kind
            (map (spec.arm_typing self.entry.scope.now self.entry.params.now) arms.now)
            mode
            found.old) }
    {
        let mut all = Seq::new(self.alloc);
        for arm in arms {
            let next = self.compared_arm(mode, kind, arm, found);
            all = push_result(all, next)?;
        }
        Ok(all)
    }

    /// An arm of a CASE whose operand is of this type.
    #[cycle(typing)]
    fn compared_arm(
        self,
        mode: Mode,
        kind: Option<Kind>,
        arm: &tree::Arm,
        found: &mut Seq<Aggregate>,
    ) -> Result<TypedArm, Refusal>
        ensures { Leaves result found.new
            (spec.compared_arm kind
            (spec.arm_typing self.entry.scope.now self.entry.params.now arm.now)
            mode
            found.old) }
    {
        let condition = check_kind(kind, self.bind(mode, &arm.condition, found)?)?;
        let (condition, value) = pair_with(condition, self.bind(mode, &arm.value, found))?;
        Ok(TypedArm { condition, value })
    }

    #[cycle(typing)]
    fn optional(
        self,
        mode: Mode,
        operand: &Option<Boxed<tree::Expr>>,
        found: &mut Seq<Aggregate>,
    ) -> Result<Option<Typed>, Refusal>
        ensures { Leaves result found.new
            (spec.optional
            (option_map (spec.typing self.entry.scope.now self.entry.params.now) operand.now)
            mode
            found.old) }
    {
        match operand {
            Some(operand) => Ok(Some(self.bind(mode, operand.get(), found)?)),
            None => Ok(None),
        }
    }

    #[cycle(typing)]
    fn call(
        self,
        mode: Mode,
        name: &str,
        operands: &[tree::Expr],
        found: &mut Seq<Aggregate>,
    ) -> TypingResult
        ensures { Leaves result found.new
            (spec.call self.entry.scope.now
            (functions.function_named name.now)
            (map (spec.typing self.entry.scope.now self.entry.params.now) operands.now)
            mode
            found.old) }
    {
        match function_named(name) {
            None => {
                let _ = self.each(mode, operands, found)?;
                Err(Refusal::TypeMismatch)
            }
            Some(CalledFunction::Aggregate(function)) => {
                let operands = self.each(Mode::Rows, operands, found)?;
                aggregate(self.scope, mode, function, operands, found)
            }
            Some(function) => {
                let operands = self.each(mode, operands, found)?;
                apply_function(self.alloc, function, operands)
            }
        }
    }

    #[cycle(typing)]
    fn case(
        self,
        mode: Mode,
        operand: &Option<Boxed<tree::Expr>>,
        arms: &[tree::Arm],
        otherwise: &Option<Boxed<tree::Expr>>,
        found: &mut Seq<Aggregate>,
    ) -> TypingResult
        ensures { Leaves result found.new
            (spec.case
            (option_map (spec.typing self.entry.scope.now self.entry.params.now) operand.now)
            (map (spec.arm_typing self.entry.scope.now self.entry.params.now) arms.now)
            (option_map (spec.typing self.entry.scope.now self.entry.params.now) otherwise.now)
            mode
            found.old) }
    {
        match operand {
            None => {
                let arms = self.arms(mode, arms, found)?;
                let (arms, otherwise) = pair_with(arms, self.optional(mode, otherwise, found))?;
                case_of(self.alloc, arms, otherwise)
            }
            Some(operand) => {
                let operand = self.bind(mode, operand.get(), found)?;
                let kind = operand.kind;
                let arms = self.compared_arms(mode, kind, arms, found);
                let (operand, arms) = pair_with(operand, arms)?;
                let otherwise = self.optional(mode, otherwise, found);
                let ((operand, arms), otherwise) = pair_with((operand, arms), otherwise)?;
                match_of(self.alloc, operand, arms, otherwise)
            }
        }
    }
}
