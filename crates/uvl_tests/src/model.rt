//! The definitions on small trees, names by their numbers, and the answers of a thin model.
ghost use Rattle.std.specs.Prelude.{◌≡◌, [], ◌∷◌, true, false, codes};
ghost use Rattle.uvl_semantics.specs.Family.{ProductsOf, is_void};
ghost use Rattle.uvl_model.specs.Comparisons.{HaveNoComparison};
ghost use Rattle.uvl_tests.specs.Examples.{thin_tree, two_or_three, unfittable, void_tree, products_of};

use crate::texts::{PRODUCTS_OF_THIN, THIN, model_of};
use std::process::Abort;
use std::test::Fail;
use uvl_model::{FeatureNo, Model, NameIndex};

/// The definitions on the examples. What it ensures is all of it.
fn products_of_examples()
    ensures mandatory_and_optional { products_of thin_tree
        ≡ (codes "Car" ∷ codes "Body" ∷ codes "Radio" ∷ []) ∷ (codes "Car" ∷ codes "Body" ∷ []) ∷ [] }
    ensures from_two_on { products_of two_or_three
        ≡ (codes "R" ∷ codes "A" ∷ codes "B" ∷ codes "C" ∷ [])
        ∷ (codes "R" ∷ codes "A" ∷ codes "B" ∷ [])
        ∷ (codes "R" ∷ codes "A" ∷ codes "C" ∷ [])
        ∷ (codes "R" ∷ codes "B" ∷ codes "C" ∷ []) ∷ [] }
    ensures never_met { products_of unfittable ≡ (codes "R" ∷ []) ∷ [] }
    ensures not_void { is_void (ProductsOf unfittable []) ≡ false }
    ensures void { is_void (ProductsOf void_tree []) ≡ true }
{}

fn expect_products(rt: &impl Abort, model: &Model, rows: &[(&[bool], bool)])
    requires { HaveNoComparison model.now }
{
    for (chosen, product) in rows {
        assert!(rt; chosen.len() == model.features().len());
        assert!(rt; model.is_product(chosen) == *product, "{chosen:?}");
    }
}

/// Names, and the numbers that features with these names have.
const FOUND: [(&str, Option<FeatureNo>); 3] = [
    ("Car", Some(FeatureNo(0))),
    ("Radio", Some(FeatureNo(2))),
    ("Wheel", None),
];

fn expect_found(rt: &impl Abort, model: &Model, rows: &[(&str, Option<FeatureNo>)]) {
    for (name, number) in rows {
        assert!(rt; model.find(name) == *number, "{name}");
    }
}

#[test]
fn a_thin_model_finds_its_features_and_knows_its_products(rt: HostRuntime) -> Result<(), Fail> {
    products_of_examples();
    let model = model_of(rt.alloc(), THIN)?;
    expect_found(&rt, &model, &FOUND);
    expect_products(&rt, &model, &PRODUCTS_OF_THIN);
    assert_eq!(rt; model.groups().len(), 2);
    Ok(())
}

#[test]
fn a_name_is_added_once(rt: HostRuntime) -> Result<(), Fail> {
    let mut names = NameIndex::new(rt.alloc());
    assert!(rt; names.add("Full Grain")?);
    assert!(rt; names.add("größe")?);
    assert!(rt; !names.add("größe")?);
    assert!(rt; names.find("größe") == Some(FeatureNo(1)));
    assert!(rt; names.find("Größe") == None);
    Ok(())
}
