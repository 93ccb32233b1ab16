//! What rows of tables share: documents, and their first faults.

use doc_table::{DocFault, TableEnd};
use std::alloc::AllocGlobal;
use std::process::Abort;
use std::test::Fail;
use toml::Table;

/// A text in which `<3:a>` stands for `aaa`.
pub(crate) fn spelled(rt: &(impl Abort + AllocGlobal), text: &str) -> Result<String, Fail> {
    let mut all = String::new(rt.alloc());
    for piece in text.split('<') {
        let Some((times, rest)) = piece.split_once('>') else {
            all.push_str(piece)?;
            continue;
        };
        let (count, one) = times.split_once(':').expect(rt, text);
        let count: usize = count.parse().ok().expect(rt, text);
        all.push_str(one.repeat(rt.alloc(), count)?.as_str())?;
        all.push_str(rest)?;
    }
    Ok(all)
}

/// Reads a document.
pub(crate) fn table(rt: &(impl Abort + AllocGlobal), document: &str) -> Table {
    let read = toml::table_from_str(rt.alloc(), document).ok();
    read.expect(rt, document)
}

/// A fault, as in the rows: its kind, path and number.
pub(crate) fn told_fault(rt: &impl AllocGlobal, fault: &DocFault) -> Result<String, Fail> {
    let path = fault.path.as_str();
    Ok(format!(in rt.alloc(); "{:?} {path} {}", fault.kind, fault.number)?)
}

/// The fault that ends a reading, as in the rows.
pub(crate) fn told_end(rt: &impl AllocGlobal, end: &TableEnd) -> Result<String, Fail> {
    match end {
        TableEnd::Fault(fault) => told_fault(rt, fault),
        TableEnd::NoMemory => Err("memory".into()),
    }
}
