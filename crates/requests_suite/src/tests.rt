//! Tests what contracts leave open: runs succeed while allocations succeed. Also the cases that no
//! line of the stored run can hold.
mod broken;
mod devices;
mod error_numbers;
mod limits;
mod lists;

use document_requests::run::run;
use document_requests::{Fault, Watched};
use std::alloc::Global;
use std::test::Fail;

/// Whether a request is answered by these bytes and this status.
fn is_answered(alloc: Global, request: &[u8], expected: &str, status: u8) -> Result<bool, Fault> {
    let mut input = request;
    let mut output = Vec::new(alloc);
    let mut reader = Watched::new(&mut input);
    let mut writer = Watched::new(&mut output);
    let found = run(alloc, &mut reader, &mut writer)?;
    Ok(found == status && output.as_slice() == expected.as_bytes())
}

/// Whether commands on a text of edition 2021 are answered so.
fn is_done(alloc: Global, text: &str, commands: &str, expected: &str) -> Result<bool, Fail> {
    let request = format!(in alloc;
        r#"{{"edition":"2021","text":"{text}","commands":[{commands}]}}"#
    )?;
    Ok(is_answered(alloc, request.as_bytes(), expected, 0)?)
}
