//! What is drawn of a trace.

use ccsl_base::Memory;
use ccsl_follow::{Follow, scale_of};
use ccsl_page::{Column, Scale};
use ccsl_scopes::Header;
use std::alloc::Global;

/// Some clocks and steps of a trace, with its unit of time, and the one in which the times of the steps are shown.
#[derive(Drop)]
pub struct View {
    pub rows: Vec<u32>,
    pub columns: Vec<Column>,
    pub scale: Scale,
    pub timescale: Option<Vec<u8>>,
    /// the step at fault, and its time
    pub marked: Option<(u64, u64)>,
}

/// The unit of time of a trace, if its header was read.
pub fn header_scale(header: Option<&Header>) -> Scale {
    match header {
        Some(header) => scale_of(header),
        None => Scale::BARE,
    }
}

// What the header of a trace says of its unit of time.
fn timescale_of(alloc: Global, header: Option<&Header>) -> Result<Option<Vec<u8>>, Memory> {
    match header {
        Some(
            Header {
                timescale: Some(text),
                ..
            },
        ) => Ok(Some(Vec::from_slice(alloc, text.as_slice())?)),
        _ => Ok(None),
    }
}

// The longest unit in which the times of some steps are whole.
fn fitted(alloc: Global, scale: Scale, columns: &[Column]) -> Result<Scale, Memory> {
    let mut times = Vec::new(alloc);
    for column in columns {
        times.push(column.time)?;
    }
    Ok(scale.fitted(times.as_slice()))
}

impl View {
    /// These clocks and steps of a trace with this header.
    pub fn new(
        alloc: Global,
        rows: Vec<u32>,
        columns: Vec<Column>,
        header: Option<&Header>,
        follow: &Follow<'_>,
    ) -> Result<View, Memory> {
        let scale = fitted(alloc, header_scale(header), columns.as_slice())?;
        Ok(View {
            rows,
            columns,
            scale,
            timescale: timescale_of(alloc, header)?,
            marked: match &follow.broken {
                Some(broken) => Some((broken.step, broken.time)),
                None => None,
            },
        })
    }

    /// The step at fault.
    pub fn marked_step(&self) -> Option<u64> {
        match self.marked {
            Some((step, _)) => Some(step),
            None => None,
        }
    }
}
