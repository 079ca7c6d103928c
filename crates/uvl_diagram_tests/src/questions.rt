//! Questions about values against plain lists of truth values, for functions of six variables without a pattern.
ghost use Rattle.std.specs.Prelude.{IfOk};
ghost use Rattle.std.specs.List.{All};
ghost use Rattle.dd_store.specs.Table.{IsVariable};
ghost use Rattle.dd_quant.specs.Possible.{AreLiterals};

use crate::lists::{LISTS, VARIABLES, YES, function, list_of, next};
use dd_apply::Kernel;
use dd_quant::{
    Literal, Marks, Offer, cofactor, exists, offers, offers_with, possible, possible_with, support,
};
use dd_store::Var;
use std::alloc::Global;
use std::process::Abort;
use std::test::Fail;

/// A table with the variables of the lists.
fn table(alloc: Global) -> Result<Kernel, Fail> {
    let mut kernel = Kernel::new(alloc, 4_096)?;
    for _ in 0..VARIABLES {
        kernel.add_variable(alloc)?;
    }
    Ok(kernel)
}

/// The list of a variable with a value.
fn list_of_literal(variable: u32, value: bool) -> u64 {
    let list = LISTS.get(variable as usize).copied().unwrap_or(0);
    if value { list } else { list ^ YES }
}

/// A list with the variable fixed: the rows where it has the value, in place of those where it hasn't too.
fn fixed(list: u64, variable: u32, value: bool) -> u64 {
    let rows = 32u32.checked_shr(variable).unwrap_or(0);
    let kept = list & list_of_literal(variable, value);
    let moved = if value {
        kept.checked_shr(rows)
    } else {
        kept.checked_shl(rows)
    };
    kept | moved.unwrap_or(0)
}

/// The variables of the table whose bits are in a number, the last one first.
fn variables_in(kernel: &Kernel, alloc: Global, bits: u32) -> Result<Vec<Var>, Fail>
    ensures { IfOk result (λ vars. All (λ v. IsVariable kernel.now v.0) vars.items) }
{
    let mut vars = Vec::new(alloc);
    for from_end in 0..kernel.variables() {
        let variable = kernel.variables() - 1 - from_end;
        if bits.checked_shr(variable).unwrap_or(0) & 1 != 0 {
            vars.push(Var(variable))?;
        }
    }
    Ok(vars)
}

/// The literals whose bits are in a number: of each variable two, for its no and for its yes. Where both are there,
/// they contradict one another.
fn literals_in(kernel: &Kernel, alloc: Global, bits: u32) -> Result<Vec<Literal>, Fail>
    ensures { IfOk result (λ given. AreLiterals kernel.now given.items) }
{
    let mut given = Vec::new(alloc);
    for variable in 0..kernel.variables() {
        for value in [false, true] {
            if is_given(bits, variable, value) {
                given.push(Literal {
                    var: Var(variable),
                    value,
                })?;
            }
        }
    }
    Ok(given)
}

/// Whether the bit of a literal is in a number.
fn is_given(bits: u32, variable: u32, value: bool) -> bool {
    let pair = bits.checked_shr(variable.saturating_mul(2)).unwrap_or(0);
    pair & (if value { 2 } else { 1 }) != 0
}

/// The list of what all the literals say whose bits are in a number.
fn list_of_literals(bits: u32) -> u64 {
    let mut list = YES;
    for variable in 0..VARIABLES {
        for value in [false, true] {
            if is_given(bits, variable, value) {
                list &= list_of_literal(variable, value);
            }
        }
    }
    list
}

/// A value with each variable fixed to each value.
fn expect_cofactors(rt: &impl Abort, alloc: Global, list: u64) -> Result<(), Fail> {
    for variable in 0..VARIABLES {
        for value in [false, true] {
            let mut kernel = table(alloc)?;
            let f = function(&mut kernel, alloc, list, VARIABLES)?;
            assert!(rt; variable < kernel.variables());
            let made = cofactor(&mut kernel, alloc, &f, Var(variable), value)?;
            let wanted = fixed(list, variable, value);
            assert!(rt;
                list_of(rt, &kernel, &made, 64) == wanted,
                "{list} {variable} {value}"
            );
        }
    }
    Ok(())
}

/// A value without the variables whose bits are in a number.
fn expect_exists(rt: &impl Abort, alloc: Global, list: u64, bits: u32) -> Result<(), Fail> {
    let mut wanted = list;
    for variable in 0..VARIABLES {
        if bits.checked_shr(variable).unwrap_or(0) & 1 != 0 {
            wanted = fixed(wanted, variable, false) | fixed(wanted, variable, true);
        }
    }
    let mut kernel = table(alloc)?;
    let f = function(&mut kernel, alloc, list, VARIABLES)?;
    let vars = variables_in(&kernel, alloc, bits)?;
    let made = exists(&mut kernel, alloc, &f, &vars)?;
    assert!(rt; list_of(rt, &kernel, &made, 64) == wanted, "{list} {bits}");
    Ok(())
}

/// Each variable may have the values that it has in the list.
fn expect_offers(rt: &impl Abort, offers: &[Offer], list: u64) {
    assert!(rt; offers.len() == VARIABLES as usize);
    for (variable, offer) in offers.iter().enumerate() {
        let no = list & list_of_literal(variable as u32, false) != 0;
        let yes = list & list_of_literal(variable as u32, true) != 0;
        assert!(rt; *offer == (Offer { no, yes }), "{list} {variable}");
    }
}

/// The variables are those with which the list changes, in their order.
fn expect_support(rt: &impl Abort, vars: &[Var], list: u64) {
    let mut count = 0usize;
    for variable in 0..VARIABLES {
        if fixed(list, variable, false) != fixed(list, variable, true) {
            assert!(rt;
                vars.get(count) == Some(&Var(variable)),
                "{list} {variable}"
            );
            count = count.saturating_add(1);
        }
    }
    assert!(rt; vars.len() == count, "{list}");
}

/// What the walks say of a value, and among the assignments with the literals whose bits are in a number.
fn expect_walks(rt: &impl Abort, alloc: Global, list: u64, bits: u32) -> Result<(), Fail> {
    let mut kernel = table(alloc)?;
    let f = function(&mut kernel, alloc, list, VARIABLES)?;
    let given = literals_in(&kernel, alloc, bits)?;
    let left = list & list_of_literals(bits);
    let mut marks = Marks::new(alloc);
    assert!(rt; possible(&kernel, alloc, &f, &[])? == (list != 0));
    assert!(rt;
        possible(&kernel, alloc, &f, &given)? == (left != 0),
        "{list} {bits}"
    );
    assert!(rt; possible_with(&kernel, alloc, &mut marks, &f, &given)? == (left != 0));
    expect_offers(
        rt,
        &offers_with(&kernel, alloc, &mut marks, &f, &given)?,
        left,
    );
    expect_offers(rt, &offers(&kernel, alloc, &f)?, list);
    expect_support(rt, &support(&kernel, alloc, &f)?, list);
    Ok(())
}

/// A list in the way of a number: any rows, few rows, most rows, or rows that tell some variables alone.
fn list_by(seed: u32) -> u64 {
    let half = next(seed);
    let other = next(half);
    let list = (half as u64) << 32 | other as u64;
    let more = (next(other) as u64) << 32 | seed as u64;
    match seed % 4 {
        0 => list,
        1 => list & more & (more >> 7) & (list >> 3),
        2 => list | more | (more >> 7) | (list << 3),
        _ => fixed(
            fixed(list, half % VARIABLES, true),
            other % VARIABLES,
            false,
        ),
    }
}

#[test]
fn questions_are_answered_as_by_lists_of_truth_values(rt: HostRuntime) -> Result<(), Fail> {
    let alloc = rt.alloc();
    for list in [0, YES] {
        expect_cofactors(&rt, alloc, list)?;
        expect_exists(&rt, alloc, list, 21)?;
        expect_walks(&rt, alloc, list, 0)?;
    }
    let mut seed = 7u32;
    for _ in 0u32..400 {
        seed = next(seed);
        let list = list_by(seed);
        expect_cofactors(&rt, alloc, list)?;
        expect_exists(&rt, alloc, list, seed >> 9)?;
        // Many literals leave little, and few of them are left here.
        expect_walks(&rt, alloc, list, (seed >> 3) & next(seed) & (seed >> 11))?;
    }
    Ok(())
}

/// A variable may have a value exactly where the value with the variable fixed to it isn't the constant no.
fn expect_offer(
    rt: &impl Abort,
    alloc: Global,
    list: u64,
    variable: u32,
    value: bool,
) -> Result<(), Fail> {
    let mut kernel = table(alloc)?;
    let f = function(&mut kernel, alloc, list, VARIABLES)?;
    let open = offers(&kernel, alloc, &f)?;
    assert!(rt; variable < kernel.variables());
    let Some(offer) = open.get(variable as usize) else {
        return Err(Fail::from("a variable has no offer"));
    };
    let is_offered = if value { offer.yes } else { offer.no };
    let made = cofactor(&mut kernel, alloc, &f, Var(variable), value)?;
    assert!(rt;
        is_offered == (kernel.constant_of(&made) != Some(false)),
        "{list} {variable} {value}"
    );
    Ok(())
}

/// The orders of three features below a root, whose variables are those from 1 on.
const ORDERS: [[u32; 3]; 6] = [
    [1, 2, 3],
    [1, 3, 2],
    [2, 1, 3],
    [2, 3, 1],
    [3, 1, 2],
    [3, 2, 1],
];

/// The products of a root with three optional features, of which the first and the second one need the third.
fn products_in(order: [u32; 3]) -> u64 {
    let [first, second, third] = order;
    let needing = list_of_literal(first, true) | list_of_literal(second, true);
    LISTS[0] & (list_of_literal(third, true) | (needing ^ YES))
}

#[test]
fn offers_are_those_of_cofactors_in_each_order_of_three_features(
    rt: HostRuntime,
) -> Result<(), Fail> {
    for order in ORDERS {
        for variable in 0..VARIABLES {
            for value in [false, true] {
                expect_offer(&rt, rt.alloc(), products_in(order), variable, value)?;
            }
        }
    }
    Ok(())
}
