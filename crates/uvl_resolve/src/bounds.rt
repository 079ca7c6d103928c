//! The bounds that the kind of a group stands for.
ghost use Rattle.std.specs.Prelude.{◌≡◌, ◌≤◌};
ghost use Rattle.uvl_base.specs.Limits.{most_features};
ghost use Rattle.uvl_placing.specs.Bounds.{least_of, most_of};

use uvl_ast::GroupKind;

/// The least number of selected members of a group of this kind with so many members: one more than
/// there are where more are wanted.
pub(crate) fn least_of(kind: GroupKind, count: u32) -> u32
    requires { count ≤ most_features }
    ensures { result ≡ least_of kind count }
{
    match kind {
        GroupKind::Mandatory => count,
        GroupKind::Optional => 0,
        GroupKind::Alternative | GroupKind::Or => 1,
        GroupKind::Range { lo, hi: _ } => lo.min(u64::from(count) + 1) as u32,
    }
}

/// The greatest number of selected members: no more than there are.
pub(crate) fn most_of(kind: GroupKind, count: u32) -> u32
    requires { count ≤ most_features }
    ensures { result ≡ most_of kind count }
{
    match kind {
        GroupKind::Mandatory | GroupKind::Optional | GroupKind::Or => count,
        GroupKind::Alternative => count.min(1),
        GroupKind::Range { lo: _, hi: None } => count,
        GroupKind::Range {
            lo: _,
            hi: Some(hi),
        } => hi.min(u64::from(count)) as u32,
    }
}
