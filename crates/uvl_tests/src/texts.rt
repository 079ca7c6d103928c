//! A small model, and the model of texts.
ghost use Rattle.std.specs.Prelude.{IfOk};
ghost use Rattle.uvl_model.specs.Comparisons.{HaveNoComparison};

use std::alloc::Global;
use std::fmt::Write;
use std::test::Fail;
use uvl_imports::load;
use uvl_model::Model;
use uvl_outside::SureFiles;
use uvl_resolve::{ResolveFault, resolve};

/// A path and the text of the file there.
pub(crate) type Source<'a> = (&'a str, &'a str);

/// A car with a mandatory body and an optional radio.
pub(crate) const THIN: &str =
    "features\n\tCar\n\t\tmandatory\n\t\t\tBody\n\t\toptional\n\t\t\tRadio\n";

/// Which choices of car, body and radio are products.
pub(crate) const PRODUCTS_OF_THIN: [(&[bool], bool); 8] = [
    (&[false, false, false], false),
    (&[false, false, true], false),
    (&[false, true, false], false),
    (&[false, true, true], false),
    (&[true, false, false], false),
    (&[true, false, true], false),
    (&[true, true, false], true),
    (&[true, true, true], true),
];

/// The model whose main file is `m.uvl` among these, or why its files, which load, have none.
pub(crate) fn model_of_files(
    alloc: Global,
    sources: &[Source],
) -> Result<Result<Model, String>, Fail>
    ensures { IfOk result (λ answer. IfOk answer HaveNoComparison) }
{
    let mut files = SureFiles::new(alloc);
    for (path, text) in sources {
        files.add(alloc, path, text.as_bytes())?;
    }
    let Ok(set) = load(alloc, &mut files, "m.uvl") else {
        return Err(Fail::from("the files don't load"));
    };
    match resolve(alloc, &set) {
        Ok(model) => Ok(Ok(model)),
        Err(fault) => Ok(Err(shown(alloc, &fault)?)),
    }
}

/// A fault as the program shows it.
fn shown(alloc: Global, fault: &ResolveFault) -> Result<String, Fail> {
    let mut text = String::new(alloc);
    match fault {
        ResolveFault::Model(fault) => write!(text, "{fault}")?,
        ResolveFault::NotBuilt => text.push_str("not built")?,
        ResolveFault::OutOfMemory => return Err(Fail::from("out of memory")),
    }
    Ok(text)
}

/// The model of a file that imports nothing.
pub(crate) fn model_of(alloc: Global, text: &str) -> Result<Model, Fail>
    ensures { IfOk result HaveNoComparison }
{
    match model_of_files(alloc, &[("m.uvl", text)])? {
        Ok(model) => Ok(model),
        Err(_) => Err(Fail::from("the file has a fault")),
    }
}
