use crate::runs::built;
use ato_base::NoMemory;
use std::alloc::Global;
use std::test::Fail;

const USAGE: &str =
    "usage: ato build ENTRY CATALOGUE [--steps N] [--out NAME]\n       ato check ENTRY CATALOGUE CERT\n";

/// Words that are no job.
const NO_JOBS: &[&str] = &[
    "",
    "build",
    "build main.ato:T",
    "build main.ato:T cat.csv more",
    "make main.ato:T cat.csv",
    "build main.ato cat.csv",
    "build main.ato:pin cat.csv",
    "build main.ato:1T cat.csv",
    "build :T cat.csv",
    "build /main.ato:T cat.csv",
    "build ../main.ato:T cat.csv",
    "build main.ato:T a\\b.csv",
    "build main.ato:T out.csv",
    "build out.cert:T cat.csv",
    "build -main.ato:T cat.csv",
    "build main.ato:T -cat.csv",
    "build main.ato:T cat.csv --steps 7",
    "build main.ato:T cat.csv --out",
    "build main.ato:T cat.csv --out -x",
    "build main.ato:T cat.csv --out=../x",
    "build main.ato:T cat.csv --out=",
    "build main.ato:T cat.csv --out=a --out=a",
    "build --out=main main.ato:T main.csv",
    "build -- main.ato:T -- cat.csv",
    "build -- main.ato:T cat.csv --out=x",
];

/// Words that are one: a block may have any letters, and the entry is divided at its last colon.
const JOBS: &[&str] = &[
    "build main.ato:Größe cat.csv",
    "build a:b:T cat.csv",
    "build -- main.ato:T cat.csv",
    "build main.ato:T out.csv --out main",
];

/// Whether a run over an empty source ends with this code, and prints this where it is given.
fn ends_so(alloc: Global, line: &str, code: u8, printed: Option<&str>) -> Result<bool, NoMemory> {
    let (found, _, sink) = built(alloc, b"", line)?;
    Ok(found == code && printed.is_none_or(|text| sink.written() == text.as_bytes()))
}

#[test]
fn words_that_are_no_job_print_the_usage(rt: HostRuntime) -> Result<(), Fail> {
    for line in NO_JOBS {
        assert!(rt; ends_so(rt.alloc(), line, 7, Some(USAGE))?, "{line}");
    }
    for line in JOBS {
        assert!(rt; ends_so(rt.alloc(), line, 1, None)?, "{line}");
    }
    Ok(())
}
