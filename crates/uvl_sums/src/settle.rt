//! Where a comparison is constant, because the terms that are left can't bring the sum across 0, or have to.
ghost use Rattle.std.specs.Prelude.{ℤ, ◌<ℤ◌, true, false, IfSome, IfNone};
ghost use Rattle.uvl_sums.specs.Settled.{Settles, AreSmall};

/// No sum is greater than this, and none is less than its opposite.
const MOST: i128 = 1 << 126;

/// A constant, and the sums so far for which it is the same: from the least to the greatest.
#[derive(Clone, Copy)]
pub(crate) struct Settled {
    pub value: bool,
    pub least: i128,
    pub greatest: i128,
}

/// The constant that is left of a comparison, where it is one. The terms that are left bring from `least` to `greatest`.
pub(crate) fn settle(exact: bool, so_far: i128, least: i128, greatest: i128) -> Option<Settled>
    requires { AreSmall so_far least greatest }
    ensures settles { IfSome result (Settles exact so_far least greatest) }
    ensures open { IfNone result (least <ℤ greatest) }
{
    if exact {
        settle_equal(so_far, least, greatest)
    } else {
        settle_at_most(so_far, least, greatest)
    }
}

/// Whether the sum is 0.
fn settle_equal(so_far: i128, least: i128, greatest: i128) -> Option<Settled>
    requires { AreSmall so_far least greatest }
    ensures settles { IfSome result (Settles true so_far least greatest) }
    ensures open { IfNone result (least <ℤ greatest) }
{
    if so_far + greatest < 0 {
        Some(Settled {
            value: false,
            least: -MOST,
            greatest: -1 - greatest,
        })
    } else if so_far + least > 0 {
        Some(Settled {
            value: false,
            least: 1 - least,
            greatest: MOST,
        })
    } else if least == greatest {
        Some(Settled {
            value: true,
            least: -least,
            greatest: -least,
        })
    } else {
        None
    }
}

/// Whether it is 0 at most.
fn settle_at_most(so_far: i128, least: i128, greatest: i128) -> Option<Settled>
    requires { AreSmall so_far least greatest }
    ensures settles { IfSome result (Settles false so_far least greatest) }
    ensures open { IfNone result (least <ℤ greatest) }
{
    if so_far + greatest <= 0 {
        Some(Settled {
            value: true,
            least: -MOST,
            greatest: -greatest,
        })
    } else if so_far + least > 0 {
        Some(Settled {
            value: false,
            least: 1 - least,
            greatest: MOST,
        })
    } else {
        None
    }
}
