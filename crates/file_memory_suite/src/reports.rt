//! Rows of a report.
use command_report::{place_row, push_row, rest_row, tally_row, unchanged_row};
use memory_table::row::{Ask, Row};
use std::alloc::Global;

/// The rows.
#[derive(Clone, Copy)]
pub(crate) enum ReportCall {
    Place,
    Rest,
    Tally,
    Unchanged,
}

/// Returns the row of a place, once it is appended to no rows.
fn place(alloc: Global) -> anyhow::Result<String> {
    let row = place_row(alloc, "a.rs", 4, 17, "width in a string")?;
    let mut rows = String::new(alloc);
    push_row(row.as_str(), 0, &mut rows)?;
    Ok(rows)
}

impl Ask for ReportCall {
    fn answer(self, alloc: Global, _refused: &mut u32) -> anyhow::Result<String> {
        match self {
            ReportCall::Place => place(alloc),
            ReportCall::Rest => Ok(rest_row(alloc, 23)?),
            ReportCall::Tally => Ok(tally_row(alloc, 2, 1, 3)?),
            ReportCall::Unchanged => Ok(unchanged_row(alloc, "nosuch", 12)?),
        }
    }
}

pub(crate) const ROWS: &[Row<ReportCall>] = &[
    (
        "command_report::place_row, command_report::push_row",
        ReportCall::Place,
        "a.rs:4:17: width in a string\n",
    ),
    (
        "command_report::rest_row",
        ReportCall::Rest,
        "and 3 more places\n",
    ),
    (
        "command_report::tally_row",
        ReportCall::Tally,
        "2 names in 1 file, 3 places left\n",
    ),
    (
        "command_report::unchanged_row",
        ReportCall::Unchanged,
        "no identifier `nosuch` in 12 files\n",
    ),
];
