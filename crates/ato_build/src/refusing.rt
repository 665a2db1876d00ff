//! The answers where the input has a fault or could not be read.
ghost use Rattle.std.specs.Prelude.{◌≡◌, [], IfOk, IfSome};
ghost use Rattle.ato_build.specs.Texts.{fault_text, files_with, said_text, LiesWithin, read_fault_text};

use crate::Status;
use crate::answer::{Answer, Said};
use crate::project::Project;
use crate::texts::{fault_text, read_fault_text};
use ato_base::{Fault, NoMemory};
use std::alloc::Global;

/// The answer for a fault that stands in the source, in the catalogue or at a word.
pub(crate) fn refuse(
    alloc: Global,
    project: &Project,
    source: &[u8],
    fault: Fault,
) -> Result<Answer, NoMemory>
    requires at { LiesWithin source.now fault.at }
    requires other { IfSome fault.other (LiesWithin source.now) }
    requires path { fault.path ≡ [] }
    ensures status { IfOk result (λ answer. answer.status ≡ Status.Fault fault) }
    ensures said { IfOk result (λ answer. said_text answer.said ≡ fault_text (files_with project.now source.now) fault) }
{
    let text = fault_text(alloc, project, source, &fault)?;
    Ok(Answer {
        status: Status::Fault(fault),
        said: Said::Text(text),
    })
}

/// The answer where a file was not read.
pub(crate) fn unread(alloc: Global, file: &str) -> Result<Answer, NoMemory>
    ensures status { IfOk result (λ answer. answer.status ≡ Status.ReadFault) }
    ensures said { IfOk result (λ answer. said_text answer.said ≡ read_fault_text file.now) }
{
    let text = read_fault_text(alloc, file)?;
    Ok(Answer {
        status: Status::ReadFault,
        said: Said::Text(text),
    })
}
