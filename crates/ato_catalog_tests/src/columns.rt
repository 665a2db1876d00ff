use crate::places::{fault_of, size_of};
use ato_base::{FaultKind, NoMemory};
use std::alloc::Global;

/// A header of so many columns, with a row in which one cell is no quantity, if it stands behind the kind.
fn text_of(alloc: Global, columns: usize, bad: usize) -> Result<String, NoMemory> {
    let mut header = String::from_str(alloc, "part,kind")?;
    let mut row = String::from_str(alloc, "A,k")?;
    for before in 2..columns {
        let column = before + 1;
        let heading = format!(in alloc; ",x{column}")?;
        header.push_str(heading.as_str())?;
        row.push_str(if column == bad { ",z" } else { ",1V" })?;
    }
    header.push_str("\n")?;
    header.push_str(row.as_str())?;
    Ok(header)
}

/// Whether these columns and this bad cell give that size, or that fault.
fn case(
    alloc: Global,
    columns: usize,
    bad: usize,
    size: Option<(usize, usize)>,
    fault: Option<(FaultKind, u32, u32)>,
) -> Result<bool, NoMemory> {
    let text = text_of(alloc, columns, bad)?;
    Ok(size_of(alloc, text.as_bytes()) == size && fault_of(alloc, text.as_bytes()) == fault)
}

#[test]
fn columns_up_to_the_limit(rt: HostRuntime) -> Result<(), NoMemory> {
    let alloc = rt.alloc();
    assert!(rt; case(alloc, 64, 0, Some((62, 1)), None)?);
    assert!(rt; case(alloc, 65, 0, None, Some((FaultKind::NoHeader, 0, 0)))?);
    assert!(rt; case(alloc, 64, 3, None, Some((FaultKind::BadCell, 1, 3)))?);
    assert!(rt; case(alloc, 64, 33, None, Some((FaultKind::BadCell, 1, 33)))?);
    assert!(rt; case(alloc, 64, 64, None, Some((FaultKind::BadCell, 1, 64)))?);
    Ok(())
}
