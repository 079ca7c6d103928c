//! A sound feature model.
ghost use Rattle.std.specs.Prelude.{◌≡◌, ◌<◌, ◌≤◌, ◌+◌, ◌↔◌, ℕ, List, length, map, slice_get, chars, Contains, is_some, IsSome, IfSome, Some};

use crate::check::{rows_hold, run_length};
use crate::{FeatureNo, FeatureRow, GroupRow, NameIndex, Rule};
use sqlite_items::Items;

/// A feature model: the rows of a tree within the limits on features and on their depth, with
/// distinct names, in which each group has bounds that its members can meet, or none can, and the
/// rules over them. Contracts see the rows.
#[derive(Debug, Drop)]
pub struct Model {
    features: Items<FeatureRow>,
    groups: Items<GroupRow>,
    rules: Items<Rule>,
    names: NameIndex,
}

impl std::marker::Model for Model {
    ghost use Rattle.std.specs.Prelude.{◌≡◌};
    ghost use Rattle.uvl_model.specs.Rows.{Rows};

    ghost Value = { Rows };

    ghost use Rattle.std.specs.Coded.{codes};
    ghost use Rattle.uvl_ast.specs.contracts.feature.Attribute as attribute;
    ghost use Rattle.uvl_model.specs.contracts.rule.Rule as rule;

    ghost coded = { Prim.hlevel (codes, attribute.the_row.coded, rule.the_row.coded) };

    ghost view = { λ m. record { features = m.features; groups = m.groups; rules = m.rules } };

    ghost use Rattle.uvl_model.specs.Names.{feature_names};
    ghost use Rattle.uvl_model.specs.Sound.{IsSound};

    ghost invariant = { λ m. let rows : Rows = record { features = m.features; groups = m.groups; rules = m.rules } in
        IsSound rows × (m.names ≡ feature_names rows) };
}

impl Model {
    ghost use Rattle.uvl_base.specs.Limits.{most_features};
    ghost use Rattle.uvl_model.specs.Amounts.{rows_below};
    ghost use Rattle.uvl_model.specs.Heads.{head_of_row, heads_below_rows};
    ghost use Rattle.uvl_model.specs.Marks.{StandFor};
    ghost use Rattle.uvl_model.specs.Names.{feature_names, chosen_names, name_of};
    ghost use Rattle.uvl_model.specs.Rules.{IsThere};
    ghost use Rattle.uvl_semantics.specs.Product.{has};
    ghost use Rattle.uvl_model.specs.Products.{Products};
    ghost use Rattle.uvl_model.specs.Sound.{IsSound};
    ghost use Rattle.uvl_model.specs.Spelling.{numbered};

    /// The model with these rows, whose names the index has by number.
    pub fn new(
        names: NameIndex,
        features: Items<FeatureRow>,
        groups: Items<GroupRow>,
        rules: Items<Rule>,
    ) -> Model
        requires sound { IsSound (record { features = features; groups = groups; rules = rules }) }
        requires named { names ≡ feature_names (record { features = features; groups = groups; rules = rules }) }
        ensures { result ≡ record { features = features; groups = groups; rules = rules } }
    {
        Model {
            features,
            groups,
            rules,
            names,
        }
    }

    /// The features, by number: at least one, and no more than a model may have.
    pub fn features(&self) -> &[FeatureRow]
        ensures rows { result.now ≡ self.now.features }
        ensures some { 0 < length result.now }
        ensures few { length result.now ≤ most_features }
        ensures sound { IsSound self.now }
    {
        self.features.as_slice()
    }

    /// The features from one downwards, in document order: it and all below it.
    pub fn below(&self, top: FeatureNo) -> &[FeatureRow]
        requires { IsThere self.now top }
        ensures run { result.now ≡ rows_below self.now.features top }
        ensures heads { map head_of_row result.now ≡ heads_below_rows self.now (name_of (feature_names self.now) top) }
        ensures within { top.0 + length result.now ≤ length self.now.features }
        ensures few { length self.now.features ≤ most_features }
    {
        let rows = &self.features.as_slice()[top.0 as usize..];
        let run = run_length(&rows[1..], top);
        &rows[..1 + run]
    }

    /// The groups: a feature's own in the order in which they are written, each in front of those of
    /// its members' trees.
    pub fn groups(&self) -> &[GroupRow]
        ensures rows { result.now ≡ self.now.groups }
        ensures sound { IsSound self.now }
    {
        self.groups.as_slice()
    }

    /// The rules: those of a file in front of those of what it places.
    pub fn rules(&self) -> &[Rule]
        ensures rows { result.now ≡ self.now.rules }
        ensures sound { IsSound self.now }
    {
        self.rules.as_slice()
    }

    /// The number of the feature with this name: its place among the names of the features.
    pub fn find(&self, name: &str) -> Option<FeatureNo>
        ensures exact { (n : ℕ) → (result ≡ Some (numbered n))
            ↔ (slice_get (feature_names self.now) n ≡ Some (chars name.now)) }
        ensures known { IsSome result ↔ Contains (feature_names self.now) (chars name.now) }
        ensures within { IfSome result (λ f. f.0 < length self.now.features) }
        ensures feature { is_some result ≡ has (Products self.now).names (chars name.now) }
    {
        self.names.find(name)
    }

    /// Whether the chosen features are a product, by one mark for each feature: the root is chosen,
    /// and each group and each rule holds. It takes no memory, and time linear in the features and
    /// in the nodes of the rules and in the features under their sums.
    pub fn is_product(&self, chosen: &[bool]) -> bool
        requires each_feature { length chosen.now ≡ length self.now.features }
        ensures product { result ≡ (Products self.now).contains (chosen_names self.now chosen.now) }
        ensures each_set { (set : List (List ℕ)) → StandFor (Products self.now).names chosen.now set →
            result ≡ (Products self.now).contains set }
        ensures sound { IsSound self.now }
    {
        rows_hold(self, chosen)
    }
}
