//! Sets of files: which are loaded in which order and with which targets, and the first fault.
use std::alloc::Global;
use std::fmt::Write;
use std::process::Abort;
use std::test::Fail;
use uvl_imports::{FileSet, LoadFault, Loaded, MOST_FILES, MOST_IMPORT_DEPTH, load};
use uvl_outside::MemFiles;

/// A path and the text of the file there.
type Source<'a> = (&'a str, &'a str);

/// The files with these texts.
fn files_of(alloc: Global, sources: &[Source]) -> Result<MemFiles, Fail> {
    let mut files = MemFiles::new(alloc, &[])?;
    for (path, text) in sources {
        files.add(alloc, path, text.as_bytes())?;
    }
    Ok(files)
}

/// Puts a file of a set with the numbers of the files that its import lines name.
fn put_loaded(into: &mut String, loaded: &Loaded) -> Result<(), Fail> {
    into.push_str(loaded.path.text())?;
    for target in loaded.targets.as_slice() {
        write!(into, " {target}")?;
    }
    into.push_str(";")?;
    Ok(())
}

/// The files of a set, as `b.uvl;a.uvl 0;`, or the fault.
fn answer(alloc: Global, loads: &Result<FileSet, LoadFault>) -> Result<String, Fail> {
    let mut shown = String::new(alloc);
    match loads {
        Ok(set) => {
            for loaded in set.files.as_slice() {
                put_loaded(&mut shown, loaded)?;
            }
        }
        Err(LoadFault::Model(fault)) => write!(shown, "{fault}")?,
        Err(LoadFault::ReadFault) => shown.push_str("read fault")?,
        Err(LoadFault::OutOfMemory) => return Err(Fail::from("out of memory")),
    }
    Ok(shown)
}

/// A file that imports nothing.
const LEAF: &str = "features\n\tA\n";

/// Files, the path of the main file, and what is answered.
const ROWS: [(&[Source], &str, &str); 13] = [
    (&[("b.uvl", LEAF)], "a.uvl", "a.uvl:1:1 E01 Absent"),
    (&[("a.uvl", LEAF), ("b.uvl", "!")], "a.uvl", "a.uvl;"),
    // each file once, in front of those that import it
    (
        &[
            ("m.uvl", "imports\n\tb\n\tc as x\n\tb as y\nfeatures\n\tM\n"),
            ("b.uvl", "imports\n\tc\nfeatures\n\tB\n"),
            ("c.uvl", LEAF),
        ],
        "m.uvl",
        "c.uvl;b.uvl 0;m.uvl 1 0 1;",
    ),
    // from the folder of the file that imports
    (
        &[
            ("d/m.uvl", "imports\n\te.f\nfeatures\n\tM\n"),
            ("d/e/f.uvl", "imports\n\tg\nfeatures\n\tF\n"),
            ("d/e/g.uvl", LEAF),
        ],
        "d/m.uvl",
        "d/e/g.uvl;d/e/f.uvl 0;d/m.uvl 1;",
    ),
    // a file that imports itself, alone or by another
    (
        &[("m.uvl", "imports\n\tm\nfeatures\n\tA\n")],
        "m.uvl",
        "m.uvl:2:2 E20 ImportCycle",
    ),
    (
        &[
            ("a.uvl", "imports\n\tb\nfeatures\n\tA\n"),
            ("b.uvl", "imports\n\ta\nfeatures\n\tB\n"),
        ],
        "a.uvl",
        "b.uvl:2:2 E20 ImportCycle",
    ),
    // names that cannot be used
    (
        &[("a.uvl", "imports\n\t\"..\".c\nfeatures\n\tA\n")],
        "a.uvl",
        "a.uvl:2:2 E29 BadImportName",
    ),
    (
        &[("a.uvl", "imports\n\tb.\"x/y\"\nfeatures\n\tA\n")],
        "a.uvl",
        "a.uvl:2:2 E29 BadImportName",
    ),
    (
        &[
            ("a.uvl", "imports\n\tb as x\n\tc as x\nfeatures\n\tA\n"),
            ("b.uvl", LEAF),
        ],
        "a.uvl",
        "a.uvl:3:2 E29 BadImportName",
    ),
    // a qualifier stands twice also where both lines name one file
    (
        &[
            ("a.uvl", "imports\n\tb\n\tb\nfeatures\n\tA\n"),
            ("b.uvl", LEAF),
        ],
        "a.uvl",
        "a.uvl:3:2 E29 BadImportName",
    ),
    // what a file in front of the next line has wrong
    (
        &[
            ("a.uvl", "imports\n\tb\n\tb\nfeatures\n\tA\n"),
            ("b.uvl", "features\n\tInteger A\n"),
        ],
        "a.uvl",
        "b.uvl:2:2 E09 TypedFeature",
    ),
    (
        &[
            ("a.uvl", "imports\n\tb\nfeatures\n\tA\n"),
            ("b.uvl", "features\n\tA\n="),
        ],
        "a.uvl",
        "b.uvl:3:1 E04 BadCharacter",
    ),
    (
        &[("a.uvl", "imports\n\tb\nfeatures\n\tA\n")],
        "a.uvl",
        "b.uvl:1:1 E01 Absent",
    ),
];

#[test]
fn sets_of_files_are_loaded(rt: HostRuntime) -> Result<(), Fail> {
    let alloc = rt.alloc();
    for (sources, main, wanted) in &ROWS {
        let result = load(alloc, &mut files_of(alloc, sources)?, main);
        let shown = answer(alloc, &result)?;
        assert!(rt; shown.as_str() == *wanted, "{shown} is not {wanted}");
    }
    Ok(())
}

/// A chain of so many files, each of which imports the next.
fn chain_of_files(alloc: Global, count: usize) -> Result<MemFiles, Fail> {
    let mut files = MemFiles::new(alloc, &[])?;
    for number in 1..count {
        let path = format!(in alloc; "f{number}.uvl")?;
        let next = number + 1;
        let text = format!(in alloc; "imports\n\tf{next}\nfeatures\n\tA\n")?;
        files.add(alloc, path.as_str(), text.as_bytes())?;
    }
    let path = format!(in alloc; "f{count}.uvl")?;
    files.add(alloc, path.as_str(), LEAF.as_bytes())?;
    Ok(files)
}

#[test]
fn imports_nest_down_to_the_limit(rt: HostRuntime) -> Result<(), Fail> {
    let alloc = rt.alloc();
    let mut files = chain_of_files(alloc, MOST_IMPORT_DEPTH + 1)?;
    let set = load(alloc, &mut files, "f1.uvl");
    assert!(rt; matches!(&set, Ok(set) if set.files.len() == 17));
    let mut files = chain_of_files(alloc, MOST_IMPORT_DEPTH + 2)?;
    let shown = answer(alloc, &load(alloc, &mut files, "f1.uvl"))?;
    assert!(rt; shown.as_str() == "f17.uvl:2:2 E21 ImportDepth", "{shown}");
    Ok(())
}

/// A main file that imports so many others, which import nothing.
fn fan_of_files(alloc: Global, count: usize) -> Result<MemFiles, Fail> {
    let mut files = MemFiles::new(alloc, &[])?;
    let mut main = String::from_str(alloc, "imports\n")?;
    for number in 0..count {
        write!(main, "\tf{number}\n")?;
        let path = format!(in alloc; "f{number}.uvl")?;
        files.add(alloc, path.as_str(), LEAF.as_bytes())?;
    }
    main.push_str(LEAF)?;
    files.add(alloc, "m.uvl", main.as_bytes())?;
    Ok(files)
}

#[test]
fn a_set_has_files_up_to_the_limit(rt: HostRuntime) -> Result<(), Fail> {
    let alloc = rt.alloc();
    let set = load(alloc, &mut fan_of_files(alloc, MOST_FILES - 1)?, "m.uvl");
    assert!(rt; matches!(&set, Ok(set) if set.files.len() == 256));
    let result = load(alloc, &mut fan_of_files(alloc, MOST_FILES)?, "m.uvl");
    let shown = answer(alloc, &result)?;
    assert!(rt; shown.as_str() == "m.uvl:257:2 E26 TooManyFiles", "{shown}");
    Ok(())
}

#[test]
fn a_failed_fetch_is_a_read_fault(rt: HostRuntime) -> Result<(), Fail> {
    let alloc = rt.alloc();
    let mut files = MemFiles::new(alloc, &[2])?;
    files.add(alloc, "a.uvl", b"imports\n\tb\nfeatures\n\tA\n")?;
    files.add(alloc, "b.uvl", LEAF.as_bytes())?;
    let shown = answer(alloc, &load(alloc, &mut files, "a.uvl"))?;
    assert!(rt; shown.as_str() == "read fault", "{shown}");
    Ok(())
}
