//! Void models, and dead, core and false-optional features, against lists that are worked out by hand.
ghost use Rattle.std.specs.Prelude.{◌≡◌, [], IfOk};
ghost use Rattle.uvl_analyses.specs.Compiled.{IsCompiled};

use crate::texts::{THIN, model_of};
use dd_apply::Kernel;
use std::alloc::Global;
use std::process::Abort;
use std::test::Fail;
use uvl_analyses::{AnalysisRefusal, core, dead, false_optional, void};
use uvl_compile::{Compiled, Names, compile};
use uvl_model::{FeatureNo, Model};

/// A model, and its dead, core and false-optional features.
type Row<'a> = (&'a str, &'a [u32], &'a [u32], &'a [u32]);

const ROWS: [Row; 5] = [
    ("features\n\tA\n", &[], &[0], &[]),
    (THIN, &[], &[0, 1], &[]),
    // each phone has GPS, and none has a camera: Phone, Calls, GPS, Media, Camera, MP3
    (
        "features\n\tPhone\n\t\tmandatory\n\t\t\tCalls\n\t\toptional\n\t\t\tGPS\n\t\t\tMedia\n\t\t\t\tor\n\t\t\t\t\tCamera\n\t\t\t\t\tMP3\nconstraints\n\tPhone => GPS\n\t!(Camera & GPS)\n",
        &[4],
        &[0, 1, 2],
        &[2, 5],
    ),
    // a group that none can meet: R, P, A, B
    (
        "features\n\tR\n\t\toptional\n\t\t\tP\n\t\t\t\t[3..*]\n\t\t\t\t\tA\n\t\t\t\t\tB\n",
        &[1, 2, 3],
        &[0],
        &[],
    ),
    // a lone alternative leaves nothing open: R, A, B, C, D
    (
        "features\n\tR\n\t\toptional\n\t\t\tA\n\t\t\t\talternative\n\t\t\t\t\tB\n\t\t[1..2]\n\t\t\tC\n\t\t\tD\nconstraints\n\tA => C\n\tC => A\n\tC\n",
        &[],
        &[0, 1, 2, 3],
        &[1, 3],
    ),
];

/// The diagram of a model in a table without variables.
fn compiled(alloc: Global, kernel: &mut Kernel, model: Model) -> Result<Compiled, Fail>
    requires { kernel.old.order ≡ [] }
    ensures { IfOk result (λ it. IsCompiled it.model kernel.new it.map it.products) }
{
    let mut names = Names::new(alloc);
    let map = names.place(kernel, alloc, &model)?;
    let products = compile(kernel, alloc, &model, &map)?;
    Ok(Compiled {
        model,
        map,
        products,
    })
}

fn expect_found(
    rt: &impl Abort,
    found: Result<Vec<FeatureNo>, AnalysisRefusal>,
    wanted: &[u32],
) -> Result<(), Fail> {
    let Ok(features) = found else {
        return Err(Fail::from("an analysis is refused"));
    };
    assert!(rt; features.len() == wanted.len(), "{wanted:?}");
    for (feature, number) in features.iter().zip(wanted) {
        assert!(rt; feature.0 == *number, "{wanted:?}");
    }
    Ok(())
}

fn expect_row(rt: &impl Abort, alloc: Global, row: &Row) -> Result<(), Fail> {
    let (text, in_none, in_each, kept) = row;
    let model = model_of(alloc, text)?;
    let mut kernel = Kernel::new(alloc, 1_048_576)?;
    let it = compiled(alloc, &mut kernel, model)?;
    assert!(rt; !void(&kernel, &it));
    expect_found(rt, dead(&kernel, alloc, &it), in_none)?;
    expect_found(rt, core(&kernel, alloc, &it), in_each)?;
    expect_found(rt, false_optional(&kernel, alloc, &it), kept)
}

fn expect_rows(rt: &impl Abort, alloc: Global, rows: &[Row]) -> Result<(), Fail> {
    for row in rows {
        expect_row(rt, alloc, row)?;
    }
    Ok(())
}

#[test]
fn the_features_that_an_analysis_finds(rt: HostRuntime) -> Result<(), Fail> {
    expect_rows(&rt, rt.alloc(), &ROWS)
}

/// Whether an analysis is refused as there is no product.
fn is_refused(found: Result<Vec<FeatureNo>, AnalysisRefusal>) -> bool {
    match found {
        Ok(_) => false,
        Err(refusal) => refusal == AnalysisRefusal::VoidModel,
    }
}

#[test]
fn a_void_model_has_no_analyses(rt: HostRuntime) -> Result<(), Fail> {
    let alloc = rt.alloc();
    let model = model_of(
        alloc,
        "features\n\tR\n\t\toptional\n\t\t\tA\nconstraints\n\t!R\n",
    )?;
    let mut kernel = Kernel::new(alloc, 1_048_576)?;
    let it = compiled(alloc, &mut kernel, model)?;
    assert!(rt; void(&kernel, &it));
    assert!(rt; is_refused(dead(&kernel, alloc, &it)));
    assert!(rt; is_refused(core(&kernel, alloc, &it)));
    assert!(rt; is_refused(false_optional(&kernel, alloc, &it)));
    Ok(())
}
