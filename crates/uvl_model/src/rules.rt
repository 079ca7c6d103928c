//! The check of rules: a loop down left operands, and calls for right ones alone.
ghost use Rattle.std.specs.Prelude.{◌≡◌, Bool};
ghost use Rattle.std.specs.List.{list_all};
ghost use Rattle.uvl_model.specs.Amounts.{IsReadable, rule_is_met};
ghost use Rattle.uvl_model.specs.Constraints.{comparison_of};
ghost use Rattle.uvl_model.specs.Outcome.{outcome_at};
ghost use Rattle.uvl_semantics.specs.Holding.{compares};

use crate::check::is_chosen;
use crate::numbers::{Amount, amount_of};
use crate::{Cmp, Model, Rule};

/// Whether each rule holds.
pub(crate) fn rules_hold(model: &Model, chosen: &[bool]) -> bool
    ensures { result ≡ list_all (rule_is_met model.now.features chosen.now) model.now.rules }
{
    for rule in model.rules() {
        if !rule_holds(model, rule, chosen) {
            return false;
        }
    }
    true
}

/// Whether a rule holds. Rules are as deep to the left as they are long, so what the left operand
/// makes of the whole is kept on the way down, and only right operands are calls.
#[cycle(rules)]
fn rule_holds(model: &Model, rule: &Rule, chosen: &[bool]) -> bool
    requires { IsReadable model.now rule.now }
    ensures { result ≡ rule_is_met model.now.features chosen.now rule.now }
{
    let mut part = rule;
    let mut outcome = Outcome::SAME;
    loop {
        match part {
            Rule::Feature(f) => return outcome.at(is_chosen(*f, chosen)),
            Rule::Compare(how, left, right) => {
                let left = amount_of(model, left.get(), chosen);
                let right = amount_of(model, right.get(), chosen);
                return outcome.at(compares(*how, left, right));
            }
            Rule::Not(operand) => {
                outcome = outcome.of(true, false);
                part = operand.get();
            }
            Rule::And(left, right) => {
                outcome = outcome.of(false, rule_holds(model, right.get(), chosen));
                part = left.get();
            }
            Rule::Or(left, right) => {
                outcome = outcome.of(rule_holds(model, right.get(), chosen), true);
                part = left.get();
            }
            Rule::Implies(left, right) => {
                outcome = outcome.of(true, rule_holds(model, right.get(), chosen));
                part = left.get();
            }
            Rule::Iff(left, right) => {
                let right = rule_holds(model, right.get(), chosen);
                outcome = outcome.of(!right, right);
                part = left.get();
            }
        }
    }
}

/// Whether two numbers compare so.
fn compares(how: Cmp, left: Amount, right: Amount) -> bool
    ensures { result ≡ compares (comparison_of how) left.value right.value }
{
    match how {
        Cmp::Equal => left.value == right.value,
        Cmp::Differs => left.value != right.value,
        Cmp::Less => left.value < right.value,
        Cmp::AtMost => left.value <= right.value,
        Cmp::Greater => left.value > right.value,
        Cmp::AtLeast => left.value >= right.value,
    }
}

/// What the truth of a part of a rule makes of the whole rule.
#[derive(Clone, Copy)]
pub(crate) struct Outcome {
    /// Whether the whole holds where the part doesn't.
    pub(crate) without: bool,
    /// Whether it holds where the part does.
    pub(crate) with: bool,
}

impl Outcome {
    /// The part is the whole.
    const SAME: Outcome = Outcome {
        without: false,
        with: true,
    };

    /// Whether the whole holds, by the truth of the part.
    fn at(self, part: bool) -> bool
        ensures { result ≡ outcome_at self part }
    {
        if part { self.with } else { self.without }
    }

    /// What a part of the part makes of the whole, by what it makes of the part.
    fn of(self, without: bool, with: bool) -> Outcome
        ensures without { result.without ≡ outcome_at self without }
        ensures with { result.with ≡ outcome_at self with }
    {
        Outcome {
            without: self.at(without),
            with: self.at(with),
        }
    }
}
